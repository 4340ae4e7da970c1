// The sizes that an operation requires of its buffers, and the tapes that a machine has or lacks.
ghost use Rattle.std.specs.Prelude.{◌≡◌, true, ◌≤◌, length, leb};
ghost use Rattle.notation.specs.Choice.{pick};
ghost use Rattle.notation.specs.Limits.{steps_most, word_most, cells_most};
ghost use Rattle.machine.specs.Model.Check.{within};
ghost use Rattle.tape.specs.Fits.{tape_fits};
ghost use Rattle.tape.specs.Model.Moves.{held};
ghost use Rattle.run_checks.specs.Model.Sizes.{if_has, sizes_fit, fuel_fits, fresh_sizes, fresh_check, blank_tape};

use machine::Machine;
use notation::limits;
use outcome::Refusal;
use tape::Tape;

fn size_fits(has: bool, n: usize) -> bool
    ensures { result ≡ if_has has (leb n cells_most) }
{
    if has {
        return n <= limits::CELLS;
    }
    true
}

pub fn sizes_fit(m: Machine, n0: usize, n1: usize, n2: usize) -> bool
    ensures { result ≡ sizes_fit m n0 n1 n2 }
{
    if limits::CELLS < n0 {
        return false;
    }
    if !size_fits(1 < m.tapes, n1) {
        return false;
    }
    size_fits(2 < m.tapes, n2)
}

pub fn tape_fits(has: bool, k: u64, t: Tape, cells: &[u8]) -> bool
    ensures { result ≡ if_has has (tape_fits k t cells.now) }
{
    if has {
        return t.fits(k, cells);
    }
    true
}

// Whether a step count is at most 2^62.
pub fn steps_fit(made: u64) -> bool
    ensures { result ≡ leb made steps_most }
{
    made <= limits::STEPS
}

pub fn fuel_fits(steps: u64, fuel: u64) -> bool
    ensures { result ≡ fuel_fits steps fuel }
{
    if limits::STEPS < fuel {
        return false;
    }
    steps <= limits::STEPS - fuel
}

fn between(least: usize, n: usize) -> bool
    ensures { result ≡ within least cells_most n }
{
    if n < least {
        return false;
    }
    n <= limits::CELLS
}

fn blank_fits(has: bool, n: usize) -> bool
    ensures { result ≡ if_has has (within 32 cells_most n) }
{
    if has {
        return between(32, n);
    }
    true
}

// Whether the buffers have the sizes that a fresh engine requires for a word of `n` symbols.
fn fresh_sizes(m: Machine, n: usize, n0: usize, n1: usize, n2: usize) -> bool
    requires { n ≤ word_most }
    ensures { result ≡ fresh_sizes m n n0 n1 n2 }
{
    if !between(n + 32, n0) {
        return false;
    }
    if !blank_fits(1 < m.tapes, n1) {
        return false;
    }
    blank_fits(2 < m.tapes, n2)
}

// The table check, refusals 9 and 10 of the word, then 11.
pub fn fresh_check(
    m: Machine,
    table: &[u8],
    word: &[u8],
    n0: usize,
    n1: usize,
    n2: usize,
) -> Result<(), Refusal>
    ensures { result ≡ fresh_check m table.now word.now n0 n1 n2 }
{
    m.check(table)?;
    machine::word::check_word(m.symbols, word)?;
    if !fresh_sizes(m, word.len(), n0, n1, n2) {
        return Err(Refusal::BufferSize);
    }
    Ok(())
}

// Makes a blank tape where the machine has it; else leaves the cells unchanged.
pub fn blank(has: bool, cells: &mut [u8]) -> Tape
    requires { if_has has (leb 32 (length cells.old)) ≡ true }
    ensures { held result cells.new ≡ blank_tape has cells.old }
{
    if has {
        return tape::inner::fresh(cells, b"");
    }
    Tape {
        len: 0,
        origin: 0,
        head: 0,
        lowest: 0,
        highest: 0,
    }
}

pub fn tape_or(has: bool, t: Tape, other: Tape) -> Tape
    ensures { result ≡ pick has t other }
{
    if has {
        return t;
    }
    other
}
