// Reads a listing from standard input, and writes its rows to standard output. It reads at most 65,536 bytes: the first
// 65,536 have the same answer as the whole input (`answer_first`, in the proofs of listing). Where a read fails, it
// writes nothing to standard output and one line to standard error. Where a write fails, it writes one line to standard
// error.
#![tactic(auto)]

ghost use Rattle.std.specs.Prelude.{◌≡◌, OnOk, IfErr, IfSome, IsErrOf};
ghost use Rattle.std.specs.Io.KnownBytes.{Appends, Keeps};
ghost use Rattle.listing.specs.Output.{answer_to};

use program_input::Failed;
use std::io::{Read, Write};

// Writes the answer to the input's listing.
fn answer<W: Write>(input: &[u8], writer: &mut W) -> Result<(), Failed>
    ensures written { OnOk result (Appends (W.contents writer.old) (W.contents writer.new) (answer_to input.now)) }
    ensures failed { IfErr result (λ why. why ≡ Failed.Writing) }
{
    let mut output = [0u8; 65536];
    match listing::list(input, &mut output) {
        Ok(m) => program_input::write_output(writer, &output[..m]),
        Err(_) => Ok(()),
    }
}

// Reads a listing, and writes the answer to it.
fn run<R: Read, W: Write>(reader: &mut R, writer: &mut W) -> Result<(), Failed>
    ensures written { IfSome (R.remaining reader.old) (λ input. OnOk result (Appends (W.contents writer.old) (W.contents writer.new) (answer_to input))) }
    ensures unread { IsErrOf result Failed.Reading → Keeps (W.contents writer.old) (W.contents writer.new) }
{
    let mut input = [0u8; 65536];
    let size = program_input::read_input(reader, &mut input)?;
    answer(&input[..size], writer)
}

fn main(rt: HostRuntime) {
    if let Err(why) = run(&mut rt.stdin(), &mut rt.stdout()) {
        let _ = eprintln!(rt; "seekrun: {why}");
    }
}
