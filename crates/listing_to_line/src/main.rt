// Reads a listing from standard input, and writes its table in the one-line form to standard output. It reads the word
// and the calls too, and leaves them out. For a listing with a bad line it writes `refused` and the number of the
// first. For a refused table it writes `refused table` and the refusal's number. It reads at most 65,536 bytes: the
// first 65,536 have the same answer as the whole input (`answer_first`, in the proofs). Where a read fails, it writes
// nothing to standard output and one line to standard error. Where a write fails, it writes one line to standard error.
#![tactic(auto)]

ghost use Rattle.std.specs.Prelude.{◌≡◌, ◌++◌, ◌+◌, ◌≤◌, length, OnOk, IfErr, IfSome, IsErrOf};
ghost use Rattle.std.specs.Io.KnownBytes.{Appends, Keeps};
ghost use Rattle.program_input.specs.Counts.{IsPrefixLen};
ghost use Rattle.listing_text.specs.Text.{bytes};
ghost use Rattle.listing_text.specs.Show.{show};
ghost use Rattle.listing_text.specs.Model.{Wrote};
ghost use Rattle.listing_to_line.specs.Output.{line_of, answer_to};

use listing_text::inner as writer;
use machine::Machine;
use program_input::Failed;
use std::io::{Read, Write};

// Prints a text, a number and a newline.
fn numbered_line(out: &mut [u8], text: &[u8], n: u64) -> usize
    requires { length text.now + 21 ≤ length out.old }
    ensures { Wrote out.old 0 (text.now ++ show n ++ bytes "\n") out.new result }
{
    let r1 = writer::put(out, 0, text);
    let r2 = writer::print_u64(out, r1, n);
    writer::put(out, r2, b"\n")
}

// Prints a text and a newline.
fn text_line(out: &mut [u8], text: &[u8]) -> usize
    requires { length text.now + 1 ≤ length out.old }
    ensures { Wrote out.old 0 (text.now ++ bytes "\n") out.new result }
{
    let r1 = writer::put(out, 0, text);
    writer::put(out, r1, b"\n")
}

// Prints the line of a table.
fn line(out: &mut [u8], m: Machine, table: &[u8]) -> usize
    requires { 65536 ≤ length out.old }
    ensures { Wrote out.old 0 (line_of m table.now) out.new result }
{
    let mut text: [u8; 774] = [0; 774];
    let written = table_text::write_line(m, table, &mut text);
    match written {
        Ok(n) => {
            let k = n as usize;
            text_line(out, &text[..k])
        }
        Err(why) => numbered_line(out, b"refused table ", why.number() as u64),
    }
}

// Prints the answer to the input.
fn print(input: &[u8], out: &mut [u8]) -> usize
    requires { 65536 ≤ length out.old }
    ensures { Wrote out.old 0 (answer_to input.now) out.new result × IsPrefixLen result out.new }
{
    let got = listing_reader::read(input);
    let parsed = got.parsed;
    match parsed {
        Err(n) => numbered_line(out, b"refused ", n),
        Ok(x) => {
            let table = got.table;
            let m = x.machine;
            let size = (8 * (m.states * m.symbols)) as usize;
            line(out, m, &table[..size])
        }
    }
}

// Writes the answer to the input.
fn answer<W: Write>(input: &[u8], writer: &mut W) -> Result<(), Failed>
    ensures written { OnOk result (Appends (W.contents writer.old) (W.contents writer.new) (answer_to input.now)) }
    ensures failed { IfErr result (λ why. why ≡ Failed.Writing) }
{
    let mut output = [0u8; 65536];
    let m = print(input, &mut output);
    program_input::write_output(writer, &output[..m])
}

// Reads the input, and writes the answer to it.
fn run<R: Read, W: Write>(reader: &mut R, writer: &mut W) -> Result<(), Failed>
    ensures written { IfSome (R.remaining reader.old) (λ input. OnOk result (Appends (W.contents writer.old) (W.contents writer.new) (answer_to input))) }
    ensures unread { IsErrOf result Failed.Reading → Keeps (W.contents writer.old) (W.contents writer.new) }
{
    let mut input = [0u8; 65536];
    let size = program_input::read_input(reader, &mut input)?;
    answer(&input[..size], writer)
}

fn main(rt: HostRuntime) {
    if let Err(why) = run(&mut rt.stdin(), &mut rt.stdout()) {
        let _ = eprintln!(rt; "listing_to_line: {why}");
    }
}
