// The tests of a fitting engine: those that read its value alone, and the measure of a side.
ghost use Rattle.std.specs.Prelude.{◌≡◌, ◌+◌, ◌≤◌, ◌<◌, length};
ghost use Rattle.notation.specs.Choice.{pick};
ghost use Rattle.notation.specs.Limits.{steps_most, slack, raised_zero};
ghost use Rattle.rle_stack.specs.Model.{side, cells_of};
ghost use Rattle.rle.specs.Fits.{side_fits, head_fits, reach_fits, counts_fit};

use super::super::ChainSim;
use machine::Machine;
use notation::limits;
use rle_stack::inner as stack;
use rle_stack::inner::Lengths;
use run_checks::inner::sizes;

pub fn counts_fit(sim: ChainSim, m: Machine) -> bool
    ensures { result ≡ counts_fit m sim }
{
    let tape = sim.tape;
    let state = sim.state.0 as u64;
    let cur = tape.cur as u64;
    if m.states <= state {
        return false;
    }
    if !sizes::steps_fit(sim.steps) {
        return false;
    }
    if sim.steps < sim.macros {
        return false;
    }
    cur < m.symbols
}

pub fn head_fits(sim: ChainSim) -> bool
    requires { sim.steps ≤ steps_most }
    ensures { result ≡ head_fits sim }
{
    let tape = sim.tape;
    if tape.head < sim.lowest {
        return false;
    }
    if sim.highest < tape.head {
        return false;
    }
    if sim.lowest < limits::RAISED_ZERO - sim.steps {
        return false;
    }
    sim.highest <= limits::RAISED_ZERO + sim.steps
}

// Whether the furthest cell of each side is near enough to position 0.
pub fn reach_fits(sim: ChainSim, lefts: u64, rights: u64) -> bool
    requires steps_le_steps_most { sim.steps ≤ steps_most }
    requires lefts_bound { (lefts ≤ sim.steps + slack) × (rights ≤ sim.steps + slack) }
    ensures { result ≡ reach_fits sim lefts rights }
{
    let tape = sim.tape;
    let most = sim.steps + limits::SLACK;
    if tape.head < limits::RAISED_ZERO - (most - lefts) {
        return false;
    }
    tape.head <= limits::RAISED_ZERO + (most - rights)
}

// The number of a side's cells, at most `most`, where the side fits; else `most + 1`.
pub fn measure<L: Lengths>(
    symbols: &[u8],
    lengths: L,
    count: usize,
    places: usize,
    k: u64,
    most: u64,
) -> u64
    requires { (places ≤ length symbols.now) × (places ≤ length (L.list lengths)) × (most < raised_zero) }
    ensures { result ≡ pick (side_fits k places most (side symbols.now (L.list lengths) count)) (cells_of (side symbols.now (L.list lengths) count)) (most + 1) }
{
    if places < count {
        return most + 1;
    }
    let side = stack::side_to_read(symbols, lengths, count);
    if !side.runs_fit(k) {
        return most + 1;
    }
    stack::cells(&side, most)
}
