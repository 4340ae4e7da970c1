// Calls on a timeline, each printed as a row. The caller must lend enough output.
ghost use Rattle.std.specs.Prelude.{◌≡◌, ◌+◌, ◌*◌, ◌≤◌, length, take, Ok};
ghost use Rattle.tape.specs.Fits.{TapeOk};
ghost use Rattle.sim.specs.Model.Engine.{conf};
ghost use Rattle.sim.specs.Model.Operations.{engine_check};
ghost use Rattle.timeline_rule.specs.Model.Kind.{call_on};
ghost use Rattle.sim_slots.specs.Model.Kind.{plain_kind};
ghost use Rattle.sim_timeline.specs.Model.{with_lent, replied};
ghost use Rattle.listing_text.specs.Model.{Wrote};
ghost use Rattle.listing_rows.specs.Rows.{row_of, rows_of, rows_on, lent_in, reply_of, refused_line, row_line, row_lines, row_most};

use super::printing;
use listing_text::inner as writer;
use machine::Machine;
use outcome::{Outcome, Refusal};
use sim::Simulator;
use sim_timeline::{Answered, Timeline};
use timeline_rule::Call;

// Prints `refused` and a number.
pub fn refused(out: &mut [u8], at: usize, n: u64) -> usize
    requires { at + 29 ≤ length out.old }
    ensures { Wrote out.old at (refused_line n) out.new result × (result ≤ at + 29) }
{
    let r1 = writer::put(out, at, b"refused ");
    let r2 = writer::print_u64(out, r1, n);
    writer::put(out, r2, b"\n")
}

// Prints the row of a call's answer.
fn row(
    out: &mut [u8],
    at: usize,
    answer: Result<Outcome, Refusal>,
    sim: Simulator,
    cells: &[u8],
) -> usize
    requires { (at + row_most ≤ length out.old) × TapeOk sim.t0 cells.now }
    ensures { Wrote out.old at (row_line (row_of (reply_of answer) sim cells.now)) out.new result × (result ≤ at + row_most) }
{
    match answer {
        Err(why) => refused(out, at, why.number() as u64),
        Ok(outcome) => printing::row(out, at, outcome, sim, cells),
    }
}

// Makes a call.
fn make(
    line: Timeline,
    m: Machine,
    table: &[u8],
    c0: &mut [u8],
    c1: &mut [u8],
    c2: &mut [u8],
    store: &mut [u8],
    call: Call,
) -> Answered
    ensures { replied result.answer (with_lent result.timeline c0.new c1.new c2.new store.new) ≡ call_on plain_kind m table.now (with_lent line c0.old c1.old c2.old store.old) call }
{
    let (which, number) = call.numbers();
    line.call(m, table, c0, c1, c2, store, which, number)
}

// Makes the first n calls, one after another, and prints a row for each. The cells and the store are left as the last
// call leaves them.
pub fn rows(
    out: &mut [u8],
    at: usize,
    timeline: Timeline,
    m: Machine,
    table: &[u8],
    c0: &mut [u8],
    c1: &mut [u8],
    c2: &mut [u8],
    store: &mut [u8],
    calls: &[Call],
    n: usize,
) -> usize
    requires { (at + row_most * n ≤ length out.old) × (n ≤ length calls.now) × (engine_check m table.now (conf timeline.engine c0.old c1.old c2.old) ≡ Ok tt) }
    ensures { Wrote out.old at (row_lines (rows_of m table.now (with_lent timeline c0.old c1.old c2.old store.old) (take n calls.now))) out.new result × (result ≤ at + row_most * n) × ((c0.new, c1.new, c2.new, store.new) ≡ lent_in (rows_on m table.now (with_lent timeline c0.old c1.old c2.old store.old) (take n calls.now)).1) }
{
    let mut line = timeline;
    let mut end = at;
    for i in 0..n {
        let answered = make(line, m, table, c0, c1, c2, store, calls[i]);
        line = answered.timeline;
        let answer = answered.answer;
        let sim = line.engine;
        end = row(out, end, answer, sim, c0);
    }
    end
}
