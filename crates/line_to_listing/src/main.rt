// Reads a line of the one-line form from standard input, and writes the listing of its table to standard output. One
// newline at the end of the input is no part of the line. For a refused line it writes `refused`, the refusal's number,
// and its place where it has one. It reads at most 65,536 bytes: the first 65,536 have the same answer as the whole input
// (`answer_first`, in the proofs). Where a read fails, it writes nothing to standard output and one line to standard
// error. Where a write fails, it writes one line to standard error.
#![tactic(auto)]

ghost use Rattle.std.specs.Prelude.{◌≡◌, ◌≤◌, length, OnOk, IfErr, IfSome, IsErrOf};
ghost use Rattle.std.specs.Io.KnownBytes.{Appends, Keeps};
ghost use Rattle.program_input.specs.Counts.{IsPrefixLen};
ghost use Rattle.listing_text.specs.Model.{Wrote};
ghost use Rattle.line_to_listing.specs.Output.{line_length, answer_to};

use program_input::Failed;
use std::io::{Read, Write};

mod printing;

// The number of bytes in the line: all but one newline at the end.
#[tactic(auto, unfolding(crate::specs::Output::line_length, notation::specs::Choice::pick))]
fn line_length(input: &[u8]) -> usize
    ensures { (result ≡ line_length input.now) × (result ≤ length input.now) }
{
    match input {
        [line @ .., b'\n'] => line.len(),
        _ => input.len(),
    }
}

// Prints the answer to the input.
fn print(input: &[u8], out: &mut [u8]) -> usize
    requires { 65536 ≤ length out.old }
    ensures { Wrote out.old 0 (answer_to input.now) out.new result × IsPrefixLen result out.new }
{
    let mut table: [u8; 2080] = [0; 2080];
    let n = line_length(input);
    let read = table_text::read_line(&input[..n], &mut table);
    match read {
        Ok(m) => printing::listing(out, m, &table),
        Err(why) => printing::refused(out, why),
    }
}

// Writes the answer to the input.
fn answer<W: Write>(input: &[u8], writer: &mut W) -> Result<(), Failed>
    ensures written { OnOk result (Appends (W.contents writer.old) (W.contents writer.new) (answer_to input.now)) }
    ensures failed { IfErr result (λ why. why ≡ Failed.Writing) }
{
    let mut output = [0u8; 65536];
    let m = print(input, &mut output);
    program_input::write_output(writer, &output[..m])
}

// Reads the input, and writes the answer to it.
fn run<R: Read, W: Write>(reader: &mut R, writer: &mut W) -> Result<(), Failed>
    ensures written { IfSome (R.remaining reader.old) (λ input. OnOk result (Appends (W.contents writer.old) (W.contents writer.new) (answer_to input))) }
    ensures unread { IsErrOf result Failed.Reading → Keeps (W.contents writer.old) (W.contents writer.new) }
{
    let mut input = [0u8; 65536];
    let size = program_input::read_input(reader, &mut input)?;
    answer(&input[..size], writer)
}

fn main(rt: HostRuntime) {
    if let Err(why) = run(&mut rt.stdin(), &mut rt.stdout()) {
        let _ = eprintln!(rt; "line_to_listing: {why}");
    }
}
