// One row: the answer, and the fields after it.
ghost use Rattle.std.specs.Prelude.{◌∷◌, ◌++◌, ◌+◌, ◌≤◌, length};
ghost use Rattle.notation.specs.Position.{◌⊖◌};
ghost use Rattle.tape.specs.Fits.{TapeOk};
ghost use Rattle.timeline_rule.specs.Model.Timeline.{answered};
ghost use Rattle.listing_text.specs.Show.{show, show_ℤ};
ghost use Rattle.listing_text.specs.Model.{Wrote};
ghost use Rattle.listing_rows.specs.Rows.{said, row_of, row_line, row_most};

use listing_text::inner as writer;
use outcome::Outcome;
use sim::Simulator;
use tape::Tape;
use tape::inner::view::View;

// Prints the word of an answer.
fn answer(out: &mut [u8], at: usize, outcome: Outcome) -> usize
    requires { at + 6 ≤ length out.old }
    ensures { Wrote out.old at (said outcome) out.new result × (result ≤ at + 6) }
{
    match outcome {
        Outcome::OutOfFuel { .. } | Outcome::Stopped { .. } => writer::put(out, at, b"fuel"),
        Outcome::Halted { .. } => writer::put(out, at, b"halted"),
        Outcome::NeverHalts { .. } => writer::put(out, at, b"never"),
        Outcome::Full { .. } => writer::put(out, at, b"full"),
    }
}

// Prints a space and a number.
fn number(out: &mut [u8], at: usize, n: u64) -> usize
    requires { at + 21 ≤ length out.old }
    ensures { Wrote out.old at (32 ∷ show n) out.new result × (result ≤ at + 21) }
{
    let next = writer::put(out, at, b" ");
    writer::print_u64(out, next, n)
}

// Prints a space and the position of an index.
fn position(out: &mut [u8], at: usize, index: usize, origin: usize) -> usize
    requires { at + 22 ≤ length out.old }
    ensures { Wrote out.old at (32 ∷ show_ℤ (index ⊖ origin)) out.new result × (result ≤ at + 22) }
{
    let next = writer::put(out, at, b" ");
    writer::print_position(out, next, index as u64, origin as u64)
}

// Prints the head's position, the lowest and the highest, each after a space.
fn positions(out: &mut [u8], at: usize, t: Tape) -> usize
    requires { at + 66 ≤ length out.old }
    ensures { Wrote out.old at ((32 ∷ show_ℤ (t.head ⊖ t.origin)) ++ (32 ∷ show_ℤ (t.lowest ⊖ t.origin)) ++ (32 ∷ show_ℤ (t.highest ⊖ t.origin))) out.new result × (result ≤ at + 66) }
{
    let head = position(out, at, t.head, t.origin);
    let low = position(out, head, t.lowest, t.origin);
    position(out, low, t.highest, t.origin)
}

// Prints the row of an answer, from the engine and the cells of its tape 0.
pub(crate) fn row(
    out: &mut [u8],
    at: usize,
    outcome: Outcome,
    sim: Simulator,
    cells: &[u8],
) -> usize
    requires { (at + row_most ≤ length out.old) × TapeOk sim.t0 cells.now }
    ensures { Wrote out.old at (row_line (row_of (answered outcome) sim cells.now)) out.new result × (result ≤ at + row_most) }
{
    let t = sim.t0;
    let state = sim.state;
    let score = View { tape: t, cells }.count_non_blank();
    let r1 = answer(out, at, outcome);
    let r2 = number(out, r1, sim.steps);
    let r3 = number(out, r2, state.0 as u64);
    let r4 = positions(out, r3, t);
    let r5 = number(out, r4, score);
    writer::put(out, r5, b"\n")
}
