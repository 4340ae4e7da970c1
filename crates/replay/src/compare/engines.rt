// Compares engines, in the order in which the data has their numbers.
use super::numbers;
use crate::chain::engine::ChainEngine;
use crate::plain::engine::PlainEngine;
use crate::read::lists;
use tape::Tape;

// A run of equal cells that is being counted, and its place in the row.
#[derive(Clone, Copy)]
struct Run {
    at: usize,
    symbol: u8,
    length: u64,
}

// Compares a run: its symbol and its length. A run of no cells is not in the row.
fn expect_run(row: &[u64], run: Run) -> usize {
    if run.length == 0 {
        return run.at;
    }
    let at = numbers::expect(row, run.at, run.symbol as u64);
    numbers::expect(row, at, run.length)
}

// Adds a cell to the run; a cell with another symbol begins a new run.
fn add_cell(row: &[u64], run: Run, cell: u8) -> Run {
    if cell == run.symbol {
        return Run {
            at: run.at,
            symbol: cell,
            length: run.length.wrapping_add(1),
        };
    }
    Run {
        at: expect_run(row, run),
        symbol: cell,
        length: 1,
    }
}

// Compares each run of equal cells.
fn expect_cells(row: &[u64], at: usize, cells: &[u8]) -> usize {
    let mut run = Run {
        at,
        symbol: 0,
        length: 0,
    };
    for cell in cells {
        run = add_cell(row, run, *cell);
    }
    expect_run(row, run)
}

// Compares an index as a position.
fn expect_index(row: &[u64], at: usize, index: usize, origin: usize) -> usize {
    let position = (index as u64).wrapping_sub(origin as u64);
    numbers::expect(row, at, position)
}

// Compares a tape: length, the index of position 0, head, lowest, highest, cells.
fn expect_tape(row: &[u64], at: usize, tape: Tape, cells: &[u8]) -> usize {
    let at = numbers::expect(row, at, tape.len as u64);
    let at = numbers::expect(row, at, tape.origin as u64);
    let at = expect_index(row, at, tape.head, tape.origin);
    let at = expect_index(row, at, tape.lowest, tape.origin);
    let at = expect_index(row, at, tape.highest, tape.origin);
    expect_cells(row, at, lists::head(cells, tape.len))
}

// Compares a plain engine: state, steps, and each of its tapes.
pub(crate) fn expect_plain(row: &[u64], at: usize, engine: PlainEngine, tapes: u64) -> usize {
    let c0 = engine.c0;
    let c1 = engine.c1;
    let c2 = engine.c2;
    let cells0: &[u8] = &c0;
    let cells1: &[u8] = &c1;
    let cells2: &[u8] = &c2;
    let sim = engine.sim;
    let at = numbers::expect(row, at, sim.state.0 as u64);
    let at = numbers::expect(row, at, sim.steps);
    let at = expect_tape(row, at, sim.t0, cells0);
    if tapes < 2 {
        return at;
    }
    let at = expect_tape(row, at, sim.t1, cells1);
    if tapes < 3 {
        return at;
    }
    expect_tape(row, at, sim.t2, cells2)
}

// Compares a side: how many runs it has, and the symbol and the length of each.
fn expect_side(row: &[u64], at: usize, runs: usize, symbols: &[u8], lengths: &[u64]) -> usize {
    let at = numbers::expect(row, at, runs as u64);
    numbers::expect_lists(row, at, runs, symbols, lengths)
}

// Compares a run-length engine without its macro steps: state, symbol under the head, steps, head, lowest, highest,
// both sides.
pub(crate) fn expect_chain(row: &[u64], at: usize, engine: ChainEngine) -> usize {
    let ls = engine.ls;
    let ll = engine.ll;
    let rs = engine.rs;
    let rl = engine.rl;
    let left_symbols: &[u8] = &ls;
    let left_lengths: &[u64] = &ll;
    let right_symbols: &[u8] = &rs;
    let right_lengths: &[u64] = &rl;
    let sim = engine.sim;
    let tape = sim.tape;
    let at = numbers::expect(row, at, sim.state.0 as u64);
    let at = numbers::expect(row, at, tape.cur as u64);
    let at = numbers::expect(row, at, sim.steps);
    let at = numbers::expect_position(row, at, tape.head);
    let at = numbers::expect_position(row, at, sim.lowest);
    let at = numbers::expect_position(row, at, sim.highest);
    let at = expect_side(row, at, tape.left, left_symbols, left_lengths);
    expect_side(row, at, tape.right, right_symbols, right_lengths)
}
