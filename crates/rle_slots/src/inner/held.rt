// The engine in a slot's bytes: its value, and whether it fits. These functions write nothing.
ghost use Rattle.std.specs.Prelude.{◌≡◌, ◌+◌, ◌*◌, ◌≤◌, ◌<◌, length};
ghost use Rattle.notation.specs.Choice.{pick};
ghost use Rattle.notation.specs.Limits.{raised_zero};
ghost use Rattle.rle_stack.specs.Model.{side, cells_of};
ghost use Rattle.rle.specs.Model.Engine.{conf};
ghost use Rattle.rle.specs.Fits.{side_fits, chain_fits};
ghost use Rattle.rle_slots.specs.Model.Slots.{bytes_for, right_symbols, left_lengths, right_lengths, part, numbers_in, value_in};
ghost use Rattle.rle_slots.specs.Model.Restored.{found_in};

use super::bytes::number;
use machine::Machine;
use notation::limits;
use rle::inner::fits;
use rle::{ChainSim, RunTape};
use rle_stack::inner::Lengths;
use store_bytes::inner as little;
use symbol::State;

// The engine's value.
pub fn value_in(slot: &[u8]) -> ChainSim
    requires { 128 ≤ length slot.now }
    ensures { result ≡ value_in slot.now }
{
    let state = little::get_16(slot, 0);
    let steps = little::get_64(slot, 8);
    let macros = little::get_64(slot, 16);
    let left = little::get_64(slot, 24);
    let right = little::get_64(slot, 32);
    let head = little::get_64(slot, 40);
    let lowest = little::get_64(slot, 48);
    let highest = little::get_64(slot, 56);
    ChainSim {
        state: State(state),
        steps,
        macros,
        tape: RunTape {
            left: left as usize,
            cur: slot[2],
            right: right as usize,
            head,
        },
        lowest,
        highest,
    }
}

// The lengths of a slot's side, in bytes.
#[derive(Drop)]
struct Numbers<'a> {
    bytes: &'a [u8],
}

impl<'a> Lengths for Numbers<'a> {
    ghost list = { λ n. numbers_in n.bytes.now };

    fn at(&self, i: usize) -> u64 {
        number(self.bytes, i)
    }
}

// The measure of a slot's side, whose symbols begin at byte `at` and whose lengths begin at byte `from`.
fn side_cells(
    slot: &[u8],
    at: usize,
    from: usize,
    places: usize,
    count: usize,
    k: u64,
    most: u64,
) -> u64
    requires { (at + places ≤ length slot.now) × (from + 8 * places ≤ length slot.now) × (most < raised_zero) }
    ensures { result ≡ pick (side_fits k places most (side (part slot.now at places) (numbers_in (part slot.now from (8 * places))) count)) (cells_of (side (part slot.now at places) (numbers_in (part slot.now from (8 * places))) count)) (most + 1) }
{
    let end = at + places;
    let last = from + 8 * places;
    let lengths = Numbers {
        bytes: &slot[from..last],
    };
    fits::measure(&slot[at..end], lengths, count, places, k, most)
}

// Whether a value fits together with the sides in a slot.
fn fits_in(sim: ChainSim, m: Machine, slot: &[u8], lp: usize, rp: usize) -> bool
    requires { length slot.now ≡ bytes_for lp rp }
    ensures { result ≡ chain_fits m (conf sim (part slot.now 128 lp) (numbers_in (part slot.now (left_lengths lp rp) (8 * lp))) (part slot.now (right_symbols lp) rp) (numbers_in (part slot.now (right_lengths lp rp) (8 * rp)))) }
{
    if !fits::counts_fit(sim, m) {
        return false;
    }
    if !fits::head_fits(sim) {
        return false;
    }
    let tape = sim.tape;
    let most = sim.steps + limits::SLACK;
    let lefts = side_cells(slot, 128, 128 + lp + rp, lp, tape.left, m.symbols, most);
    if most < lefts {
        return false;
    }
    let rights = side_cells(
        slot,
        128 + lp,
        128 + 9 * lp + rp,
        rp,
        tape.right,
        m.symbols,
        most,
    );
    if most < rights {
        return false;
    }
    fits::reach_fits(sim, lefts, rights)
}

// The engine in a slot for `lp` and `rp` places, if it fits and is of step `step`.
pub fn peek(m: Machine, slot: &[u8], step: u64, lp: usize, rp: usize) -> Option<ChainSim>
    requires { length slot.now ≡ bytes_for lp rp }
    ensures { result ≡ found_in m lp rp slot.now step }
{
    let sim = value_in(slot);
    if sim.steps != step {
        return None;
    }
    if !fits_in(sim, m, slot, lp, rp) {
        return None;
    }
    Some(sim)
}
