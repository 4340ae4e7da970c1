// An advance of the run-length engine, and its slots. The functions require a checked engine, and a slot of the size
// for the engine's places.
pub mod bytes;
pub mod held;

ghost use Rattle.std.specs.Prelude.{◌≡◌, ◌+◌, ◌*◌, ◌≤◌, length, Ok};
ghost use Rattle.std.proofs.Math.Seq.{paste};
ghost use Rattle.notation.specs.Limits.{runs_most};
ghost use Rattle.rle_stack.specs.Model.{places_of};
ghost use Rattle.rle.specs.Model.Engine.{conf};
ghost use Rattle.rle.specs.Fits.{run_check};
ghost use Rattle.rle_slots.specs.Model.Advance.{advance_of};
ghost use Rattle.rle_slots.specs.Model.Slots.{bytes_for, put_value, packed, part, numbers_in, lent};
ghost use Rattle.rle_slots.specs.Model.Restored.{restored, restored_of};

use machine::Machine;
use outcome::Outcome;
use rle::ChainSim;
use rle::inner::Table;
use rle_stack::inner as stack;
use store_bytes::inner as little;
use timeline_rule::inner::is_spent;

// An engine after an advance, and the outcome there.
#[derive(Clone, Copy)]
pub struct Advanced {
    pub sim: ChainSim,
    pub outcome: Outcome,
}

// Runs without the never test. Where all the fuel was used, the outcome is the verdict of a run with fuel 0.
pub fn advance(
    sim: ChainSim,
    m: Machine,
    table: &[u8],
    ls: &mut [u8],
    ll: &mut [u64],
    rs: &mut [u8],
    rl: &mut [u64],
    fuel: u64,
) -> Advanced
    requires { run_check m table.now fuel (conf sim ls.old ll.old rs.old rl.old) ≡ Ok tt }
    ensures { (result.outcome, conf result.sim ls.new ll.new rs.new rl.new) ≡ advance_of m table.now fuel (conf sim ls.old ll.old rs.old rl.old) }
{
    let stride = machine::inner::stride(m.tapes, m.symbols);
    let t = Table {
        m,
        stride,
        entries: table,
    };
    let ran = rle::inner::run_all(sim, t, false, None, ls, ll, rs, rl, fuel);
    let after = ran.sim;
    let outcome = ran.outcome;
    if !is_spent(outcome) {
        return Advanced {
            sim: after,
            outcome,
        };
    }
    let verdict = rle::inner::verdict(after, t);
    Advanced {
        sim: after,
        outcome: verdict,
    }
}

// The number of bytes of a slot for an engine with these places.
pub fn slot_size(ls: &[u8], ll: &[u64], rs: &[u8], rl: &[u64]) -> usize
    requires { (places_of ls.now ll.now ≤ runs_most) × (places_of rs.now rl.now ≤ runs_most) }
    ensures { result ≡ bytes_for (places_of ls.now ll.now) (places_of rs.now rl.now) }
{
    let lp = stack::places(ls, ll);
    let rp = stack::places(rs, rl);
    128 + 9 * (lp + rp)
}

// Writes an engine's value into the first 64 bytes of a slot.
fn put_value(sim: ChainSim, slot: &mut [u8])
    requires { 128 ≤ length slot.old }
    ensures { slot.new ≡ put_value sim slot.old }
{
    let tape = sim.tape;
    little::put_16(slot, 0, sim.state.0);
    slot[2] = tape.cur;
    little::put_64(slot, 8, sim.steps);
    little::put_64(slot, 16, sim.macros);
    little::put_64(slot, 24, tape.left as u64);
    little::put_64(slot, 32, tape.right as u64);
    little::put_64(slot, 40, tape.head);
    little::put_64(slot, 48, sim.lowest);
    little::put_64(slot, 56, sim.highest);
}

// Writes an engine's value and its live runs into a slot.
pub fn save(sim: ChainSim, ls: &[u8], ll: &[u64], rs: &[u8], rl: &[u64], slot: &mut [u8])
    requires left_bound { (sim.tape.left ≤ places_of ls.now ll.now) × (sim.tape.right ≤ places_of rs.now rl.now) }
    requires slot_len { length slot.old ≡ bytes_for (places_of ls.now ll.now) (places_of rs.now rl.now) }
    ensures { slot.new ≡ packed (conf sim ls.now ll.now rs.now rl.now) slot.old }
{
    let lp = stack::places(ls, ll);
    let rp = stack::places(rs, rl);
    let right_symbols = 128 + lp;
    let left_lengths = 128 + lp + rp;
    let right_lengths = 128 + 9 * lp + rp;
    let tape = sim.tape;
    put_value(sim, slot);
    little::copy_in(slot, 128, ls, tape.left);
    little::copy_in(slot, right_symbols, rs, tape.right);
    bytes::put_numbers(slot, left_lengths, ll, tape.left);
    bytes::put_numbers(slot, right_lengths, rl, tape.right);
}

// Reads the live runs of a side, whose symbols begin at byte `at` and whose lengths begin at byte `from`.
fn take_side(
    slot: &[u8],
    at: usize,
    from: usize,
    places: usize,
    count: usize,
    symbols: &mut [u8],
    lengths: &mut [u64],
)
    requires places_in_bounds { (at + places ≤ length slot.now) × (from + 8 * places ≤ length slot.now) × (count ≤ places) }
    requires count_in_bounds { (count ≤ length symbols.old) × (count ≤ length lengths.old) }
    ensures { (symbols.new ≡ paste symbols.old 0 (part slot.now at places) count) × (lengths.new ≡ paste lengths.old 0 (numbers_in (part slot.now from (8 * places))) count) }
{
    let end = at + places;
    let last = from + 8 * places;
    little::copy_in(symbols, 0, &slot[at..end], count);
    bytes::take_numbers(lengths, &slot[from..last], count);
}

// Reads the engine of step `step` from a slot into the places. Writes nothing where the slot holds none that fits.
pub fn restore(
    m: Machine,
    slot: &[u8],
    step: u64,
    ls: &mut [u8],
    ll: &mut [u64],
    rs: &mut [u8],
    rl: &mut [u64],
) -> Option<ChainSim>
    requires { length slot.now ≡ bytes_for (places_of ls.old ll.old) (places_of rs.old rl.old) }
    ensures { restored result (lent ls.new ll.new rs.new rl.new) ≡ restored_of m slot.now step (lent ls.old ll.old rs.old rl.old) }
{
    let lp = stack::places(ls, ll);
    let rp = stack::places(rs, rl);
    let right_symbols = 128 + lp;
    let left_lengths = 128 + lp + rp;
    let right_lengths = 128 + 9 * lp + rp;
    let found = held::peek(m, slot, step, lp, rp);
    match found {
        None => {
            return None;
        }
        Some(sim) => {
            let tape = sim.tape;
            take_side(slot, 128, left_lengths, lp, tape.left, ls, ll);
            take_side(slot, right_symbols, right_lengths, rp, tape.right, rs, rl);
            return Some(sim);
        }
    }
}
