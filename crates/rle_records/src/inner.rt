// Writes a side's runs into the slice. Only `fill` takes a slice of records: it decides nothing.
ghost use Rattle.std.specs.Prelude.{◌≡◌, ◌≤◌, ◌<◌, length};
ghost use Rattle.rle_records.specs.Model.{run_at, records_of, room_for, written_of};

use super::Run;
use outcome::Refusal;
use rle_stack::inner as stack;
use rle_stack::inner::Runs;
use symbol::Symbol;

// Run i of a side, the bottom one first.
fn run_at(side: &Runs<'_, &[u64]>, i: usize) -> Run
    requires { i < side.now.count }
    ensures { result ≡ run_at side.now.symbols side.now.lengths i }
{
    let (symbol, len) = stack::run(side, i);
    Run {
        symbol: Symbol(symbol),
        len,
    }
}

// Refusal 18 where a slice of `room` records is too short for `count` runs, else `count`.
pub fn room_for(count: usize, room: usize) -> Result<u64, Refusal>
    ensures { result ≡ room_for count room }
{
    if room < count {
        return Err(Refusal::OutputSize);
    }
    Ok(count as u64)
}

// How many records are written with an answer: none with a refusal.
pub fn written(answer: Result<u64, Refusal>) -> usize
    ensures { result ≡ written_of answer }
{
    match answer {
        Ok(count) => count as usize,
        Err(_) => 0,
    }
}

// Writes the runs of a side, the topmost last, into the first places of `out`.
pub fn fill(side: &Runs<'_, &[u64]>, out: &mut [Run])
    requires { side.now.count ≤ length out.old }
    ensures { out.new ≡ records_of side.now out.old }
{
    for i in 0..side.count() {
        out[i] = run_at(side, i);
    }
}
