// An advance of the plain engine, and its slots. The functions require buffers and slots of the right sizes.
ghost use Rattle.std.specs.Prelude.{◌≡◌, true, ◌+◌, ◌≤◌, ◌<◌, length, Ok};
ghost use Rattle.std.proofs.Math.Seq.{paste};
ghost use Rattle.notation.specs.Choice.{pick};
ghost use Rattle.tape.specs.Fits.{tape_fits};
ghost use Rattle.tape.specs.Model.Moves.{held};
ghost use Rattle.sim.specs.Model.Engine.{conf};
ghost use Rattle.sim.specs.Model.Operations.{if_has, sizes_fit, sim_fits, run_check};
ghost use Rattle.sim_slots.specs.Model.Advance.{advance_of};
ghost use Rattle.sim_slots.specs.Model.Slots.{size_if, size_of, put_tape, put_held, put_if, pack_of, tape_at, sim_in, part_of, part0, part1, part2, holds_one, fill_if, filled, unpack_of};
ghost use Rattle.sim_slots.specs.Invariants.{outcome_in, PutOk, PutIf, SaveOk, FillOk, FillIf, FilledOk, restored, restored_on};

use machine::Machine;
use notation::limits;
use outcome::{Outcome, Refusal};
use sim::Simulator;
use store_bytes::inner::{copy_in, get_16, get_32, get_64, put_16, put_32, put_64};
use symbol::State;
use tape::Tape;
use timeline_rule::inner::is_spent;

// An engine after an advance, and how the advance ended.
#[derive(Clone, Copy)]
pub struct Advanced {
    pub sim: Simulator,
    pub outcome: Outcome,
}

// The outcome of a run; a run that passed its check is not refused.
fn outcome_in(answer: Result<Outcome, Refusal>) -> Outcome
    ensures { result ≡ outcome_in answer }
{
    answer.unwrap_or(Outcome::OutOfFuel { steps: 0 })
}

// Runs without the never test. Where all the fuel was used, makes the never test there, with fuel 0.
pub fn advance(
    sim: Simulator,
    m: Machine,
    table: &[u8],
    c0: &mut [u8],
    c1: &mut [u8],
    c2: &mut [u8],
    fuel: u64,
) -> Advanced
    requires { run_check m table.now fuel (conf sim c0.old c1.old c2.old) ≡ Ok tt }
    ensures { (result.outcome, conf result.sim c0.new c1.new c2.new) ≡ advance_of m table.now fuel (conf sim c0.old c1.old c2.old) }
{
    let ran = sim::inner::run_all(sim, m, false, None, table, c0, c1, c2, fuel);
    let after = ran.sim;
    let answer = ran.answer;
    let outcome = outcome_in(answer);
    if !is_spent(outcome) {
        return Advanced {
            sim: after,
            outcome,
        };
    }
    let tested = sim::inner::run_all(after, m, true, None, table, c0, c1, c2, 0);
    let still = tested.sim;
    let verdict = tested.answer;
    Advanced {
        sim: still,
        outcome: outcome_in(verdict),
    }
}

// The number of bytes for a tape's cells; 0 for a tape that the machine lacks.
fn part_size(has: bool, n: usize) -> usize
    ensures { result ≡ size_if has n }
{
    if has { n } else { 0 }
}

// The size of a slot: 128 bytes more than the cells buffers.
pub fn slot_size(m: Machine, n0: usize, n1: usize, n2: usize) -> usize
    requires { sizes_fit m n0 n1 n2 ≡ true }
    ensures { result ≡ size_of m n0 n1 n2 }
{
    let p1 = part_size(1 < m.tapes, n1);
    let p2 = part_size(2 < m.tapes, n2);
    128 + n0 + p1 + p2
}

// Writes a tape's five numbers, of 4 bytes each.
fn put_numbers(t: Tape, slot: &mut [u8], p: usize)
    requires { (p + 20 ≤ length slot.old) × (t.len < 4294967296) × (t.origin < 4294967296) × (t.head < 4294967296) × (t.lowest < 4294967296) × (t.highest < 4294967296) }
    ensures { slot.new ≡ put_tape t p slot.old }
{
    put_32(slot, p, t.len as u32);
    put_32(slot, p + 4, t.origin as u32);
    put_32(slot, p + 8, t.head as u32);
    put_32(slot, p + 12, t.lowest as u32);
    put_32(slot, p + 16, t.highest as u32);
}

// Writes a tape's numbers from byte `p` on, and its live cells from byte `at` on.
fn put_held(t: Tape, cells: &[u8], slot: &mut [u8], p: usize, at: usize)
    requires { PutOk (held t cells.now) p at slot.old }
    ensures { slot.new ≡ put_held (held t cells.now) p at slot.old }
{
    put_numbers(t, slot, p);
    copy_in(slot, at, cells, t.len);
}

fn put_if(has: bool, t: Tape, cells: &[u8], slot: &mut [u8], p: usize, at: usize)
    requires { PutIf has (held t cells.now) p at slot.old }
    ensures { slot.new ≡ put_if has (held t cells.now) p at slot.old }
{
    if !has {
        return;
    }
    put_held(t, cells, slot, p, at);
}

// Writes an engine into a slot.
pub fn save(sim: Simulator, m: Machine, c0: &[u8], c1: &[u8], c2: &[u8], slot: &mut [u8])
    requires { SaveOk m (conf sim c0.now c1.now c2.now) slot.old }
    ensures { slot.new ≡ pack_of m (conf sim c0.now c1.now c2.now) slot.old }
{
    let t0 = sim.t0;
    let t1 = sim.t1;
    let t2 = sim.t2;
    let n1 = part_size(1 < m.tapes, c1.len());
    let at1 = 128 + c0.len();
    let at2 = at1 + n1;
    put_16(slot, 0, sim.state.0);
    put_64(slot, 8, sim.steps);
    put_held(t0, c0, slot, 16, 128);
    put_if(1 < m.tapes, t1, c1, slot, 36, at1);
    put_if(2 < m.tapes, t2, c2, slot, 56, at2);
}

// Reads the tape whose numbers begin at byte `p`.
fn get_tape(slot: &[u8], p: usize) -> Tape
    requires { p + 20 ≤ length slot.now }
    ensures { result ≡ tape_at slot.now p }
{
    let len = get_32(slot, p);
    let origin = get_32(slot, p + 4);
    let head = get_32(slot, p + 8);
    let lowest = get_32(slot, p + 12);
    let highest = get_32(slot, p + 16);
    Tape {
        len: len as usize,
        origin: origin as usize,
        head: head as usize,
        lowest: lowest as usize,
        highest: highest as usize,
    }
}

fn get_if(has: bool, slot: &[u8], p: usize, other: Tape) -> Tape
    requires { p + 20 ≤ length slot.now }
    ensures { result ≡ pick has (tape_at slot.now p) other }
{
    if has { get_tape(slot, p) } else { other }
}

// Reads the engine's value in a slot; tapes that the machine lacks keep the fields of `sim`.
fn get_sim(sim: Simulator, m: Machine, slot: &[u8]) -> Simulator
    requires { 128 ≤ length slot.now }
    ensures { result ≡ sim_in m slot.now sim }
{
    let old1 = sim.t1;
    let old2 = sim.t2;
    let state = get_16(slot, 0);
    let steps = get_64(slot, 8);
    let t0 = get_tape(slot, 16);
    let t1 = get_if(1 < m.tapes, slot, 36, old1);
    let t2 = get_if(2 < m.tapes, slot, 56, old2);
    Simulator {
        state: State(state),
        steps,
        t0,
        t1,
        t2,
    }
}

// Whether a tape fits the `n` cells from byte `at` on.
fn part_fits(k: u64, t: Tape, slot: &[u8], at: usize, n: usize) -> bool
    requires { at + n ≤ length slot.now }
    ensures { result ≡ tape_fits k t (part_of at n slot.now) }
{
    t.fits(k, &slot[at..at + n])
}

fn part_fits_if(has: bool, k: u64, t: Tape, slot: &[u8], at: usize, n: usize) -> bool
    requires { at + n ≤ length slot.now }
    ensures { result ≡ if_has has (tape_fits k t (part_of at n slot.now)) }
{
    !has || part_fits(k, t, slot, at, n)
}

// Whether an engine fits the cells in the slot.
fn fits_in(v: Simulator, m: Machine, slot: &[u8], n0: usize, n1: usize, n2: usize) -> bool
    requires { length slot.now ≡ size_of m n0 n1 n2 }
    ensures { result ≡ sim_fits m v (part0 n0 slot.now) (part1 m n0 n1 slot.now) (part2 m n0 n1 n2 slot.now) }
{
    let t0 = v.t0;
    let t1 = v.t1;
    let t2 = v.t2;
    let q = v.state.0 as u64;
    let k = m.symbols;
    let p1 = part_size(1 < m.tapes, n1);
    let p2 = part_size(2 < m.tapes, n2);
    let at1 = 128 + n0;
    if m.states <= q {
        return false;
    }
    if limits::STEPS < v.steps {
        return false;
    }
    if !part_fits(k, t0, slot, 128, n0) {
        return false;
    }
    if !part_fits_if(1 < m.tapes, k, t1, slot, at1, p1) {
        return false;
    }
    part_fits_if(2 < m.tapes, k, t2, slot, at1 + p1, p2)
}

// Whether the engine is of step `step`, and fits the cells in the slot.
fn holds_one(
    v: Simulator,
    m: Machine,
    slot: &[u8],
    step: u64,
    n0: usize,
    n1: usize,
    n2: usize,
) -> bool
    requires { length slot.now ≡ size_of m n0 n1 n2 }
    ensures { result ≡ holds_one m slot.now step v n0 n1 n2 }
{
    if v.steps != step {
        return false;
    }
    fits_in(v, m, slot, n0, n1, n2)
}

// Copies a tape's live cells, among the `n` from byte `at` on, into its buffer.
fn fill(t: Tape, slot: &[u8], at: usize, n: usize, cells: &mut [u8])
    requires { FillOk t at n slot.now cells.old }
    ensures { cells.new ≡ paste cells.old 0 (part_of at n slot.now) t.len }
{
    copy_in(cells, 0, &slot[at..at + n], t.len);
}

fn fill_if(has: bool, t: Tape, slot: &[u8], at: usize, n: usize, cells: &mut [u8])
    requires { FillIf has t at n slot.now cells.old }
    ensures { cells.new ≡ fill_if has t (part_of at n slot.now) cells.old }
{
    if !has {
        return;
    }
    fill(t, slot, at, n, cells);
}

// Copies the live cells of an engine from the slot into the buffers.
fn fill_all(v: Simulator, m: Machine, slot: &[u8], c0: &mut [u8], c1: &mut [u8], c2: &mut [u8])
    requires { FilledOk m v slot.now c0.old c1.old c2.old }
    ensures { conf v c0.new c1.new c2.new ≡ filled m slot.now v c0.old c1.old c2.old }
{
    let t0 = v.t0;
    let t1 = v.t1;
    let t2 = v.t2;
    let n0 = c0.len();
    let p1 = part_size(1 < m.tapes, c1.len());
    let p2 = part_size(2 < m.tapes, c2.len());
    let at1 = 128 + n0;
    fill(t0, slot, 128, n0, c0);
    fill_if(1 < m.tapes, t1, slot, at1, p1, c1);
    fill_if(2 < m.tapes, t2, slot, at1 + p1, p2, c2);
}

// Reads a slot's engine into the buffers if it is of step `step` and fits; else leaves the buffers unchanged.
pub fn restore(
    sim: Simulator,
    m: Machine,
    slot: &[u8],
    step: u64,
    c0: &mut [u8],
    c1: &mut [u8],
    c2: &mut [u8],
) -> Option<Simulator>
    requires { length slot.now ≡ size_of m (length c0.old) (length c1.old) (length c2.old) }
    ensures { restored result c0.new c1.new c2.new ≡ restored_on (unpack_of m slot.now step (conf sim c0.old c1.old c2.old)) (conf sim c0.old c1.old c2.old) }
{
    let v = get_sim(sim, m, slot);
    if !holds_one(v, m, slot, step, c0.len(), c1.len(), c2.len()) {
        return None;
    }
    fill_all(v, m, slot, c0, c1, c2);
    Some(v)
}
