// Cases of the run-length engine: a fresh engine on a word, a run before the case, then the case.
pub(crate) mod engine;
mod questions;
mod runs;

use crate::lent::Engine;
use crate::{rows, timeline};
use engine::{ChainEngine, RUNS};
use machine::Machine;
use rle::ChainSim;

// What the engine does in a case.
#[derive(Clone, Copy)]
pub(crate) enum Act {
    Run,
    Ask,
    Seek,
}

// Makes a fresh engine, and replays the case on it.
pub(crate) fn replay(
    act: Act,
    row: &[u64],
    at: usize,
    m: Machine,
    table: &[u8],
    word: &[u8],
) -> usize {
    let ls: [u8; RUNS] = [0; RUNS];
    let ll: [u64; RUNS] = [0; RUNS];
    let mut rs: [u8; RUNS] = [0; RUNS];
    let mut rl: [u64; RUNS] = [0; RUNS];
    let fresh = ChainSim::new(m, table, word, &ls, &ll, &mut rs, &mut rl);
    match fresh {
        Err(_) => rows::DIFFERS,
        Ok(sim) => {
            let engine = ChainEngine {
                sim,
                ls,
                ll,
                rs,
                rl,
            };
            return replay_on(act, row, at, m, table, engine);
        }
    }
}

// Runs the engine without a stop rule, with the fuel that the row has at the place; then replays the case.
fn replay_on(
    act: Act,
    row: &[u64],
    at: usize,
    m: Machine,
    table: &[u8],
    fresh: ChainEngine,
) -> usize {
    let ran = fresh.run(m, table, None, rows::number(row, at));
    let engine = ran.engine;
    let at = rows::past(at, 1);
    match act {
        Act::Run => runs::replay(row, at, m, table, engine),
        Act::Ask => crate::questions::replay(row, at, m, table, engine),
        Act::Seek => timeline::replay(row, at, m, table, engine),
    }
}
