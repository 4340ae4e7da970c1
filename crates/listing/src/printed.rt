// Reads the input, and prints the answer to it.
ghost use Rattle.std.specs.Prelude.{◌≡◌, ◌≤◌, length};
ghost use Rattle.listing_text.specs.Model.{Wrote};
ghost use Rattle.listing_reader.specs.Invariants.{sofar, ReaderOk};
ghost use Rattle.listing.specs.Output.{output_most, answer_of, answer_to};

use super::asked;
use listing_reader::Reader;
use timeline_rule::Call;

// Prints the answer to an input without a bad line, on the machine's part of the table.
fn answer(x: Reader, out: &mut [u8], table: &[u8], word: &[u8], calls: &[Call]) -> usize
    requires { (output_most ≤ length out.old) × ReaderOk x × (length table.now ≡ 4096) × (length word.now ≡ 81) × (length calls.now ≡ 64) }
    ensures { Wrote out.old 0 (answer_of (sofar x table.now word.now calls.now)) out.new result }
{
    let m = x.machine;
    let size = (8 * (m.states * m.symbols)) as usize;
    let n = x.word;
    asked::in_buffers(out, m, &table[..size], &word[..n], calls, x.calls)
}

// Prints `refused` and a bad line's number, or the answer.
pub(crate) fn print(input: &[u8], out: &mut [u8]) -> usize
    requires { output_most ≤ length out.old }
    ensures { Wrote out.old 0 (answer_to input.now) out.new result }
{
    let got = listing_reader::read(input);
    let parsed = got.parsed;
    match parsed {
        Err(n) => listing_rows::inner::refused(out, 0, n),
        Ok(x) => answer(x, out, &got.table, &got.word, &got.calls),
    }
}
