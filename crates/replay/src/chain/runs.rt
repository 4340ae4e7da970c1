// Cases of one run of the run-length engine.
use super::engine::ChainEngine;
use crate::compare::{answers, engines, numbers};
use crate::lent::Engine;
use crate::read::order;
use machine::Machine;

// Replays a run, with a stop rule and fuel. The row has the answer, the macro steps and the engine.
pub(crate) fn replay(
    row: &[u64],
    at: usize,
    m: Machine,
    table: &[u8],
    engine: ChainEngine,
) -> usize {
    let order = order::read(row, at);
    let rule = order.rule;
    let ran = engine.run(m, table, rule, order.fuel);
    let answer = ran.answer;
    let after = ran.engine;
    let sim = after.sim;
    let at = answers::expect_answer(row, order.next, answer);
    let at = numbers::expect(row, at, sim.macro_steps());
    engines::expect_chain(row, at, after)
}
