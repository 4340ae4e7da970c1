// Cases of the plain engine: a fresh engine on a word, a run before the case, then the case.
pub(crate) mod engine;
mod questions;
mod runs;

use crate::lent::Engine;
use crate::{rows, timeline};
use engine::{FEW_CELLS, MANY_CELLS, PlainEngine};
use machine::Machine;
use sim::Simulator;

// What the engine does in a case.
#[derive(Clone, Copy)]
pub(crate) enum Act {
    Run,
    Fast,
    Step,
    Ask,
    Seek,
}

// Makes a fresh engine, and replays the case on it.
pub(crate) fn replay(
    act: Act,
    row: &[u64],
    at: usize,
    m: Machine,
    table: &[u8],
    word: &[u8],
) -> usize {
    let mut c0: [u8; MANY_CELLS] = [0; MANY_CELLS];
    let mut c1: [u8; FEW_CELLS] = [0; FEW_CELLS];
    let mut c2: [u8; FEW_CELLS] = [0; FEW_CELLS];
    let fresh = Simulator::new(m, table, word, &mut c0, &mut c1, &mut c2);
    match fresh {
        Err(_) => rows::DIFFERS,
        Ok(sim) => {
            let engine = PlainEngine { sim, c0, c1, c2 };
            return replay_on(act, row, at, m, table, engine);
        }
    }
}

// Runs the engine without a stop rule, with the fuel that the row has at the place; then replays the case.
fn replay_on(
    act: Act,
    row: &[u64],
    at: usize,
    m: Machine,
    table: &[u8],
    fresh: PlainEngine,
) -> usize {
    let ran = fresh.run(m, table, None, rows::number(row, at));
    let engine = ran.engine;
    let at = rows::past(at, 1);
    match act {
        Act::Run => runs::replay_run(row, at, m, table, engine),
        Act::Fast => runs::replay_fast(row, at, m, table, engine),
        Act::Step => runs::replay_step(row, at, m, table, engine),
        Act::Ask => crate::questions::replay(row, at, m, table, engine),
        Act::Seek => timeline::replay(row, at, m, table, engine),
    }
}
