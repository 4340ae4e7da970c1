// Cases of one run or one step of the plain engine.
use super::engine::PlainEngine;
use crate::compare::{answers, engines};
use crate::lent::{Engine, Ran};
use crate::read::{lists, order};
use crate::rows::PLACES;
use machine::Machine;

// Replays a run, with a stop rule and fuel.
pub(crate) fn replay_run(
    row: &[u64],
    at: usize,
    m: Machine,
    table: &[u8],
    engine: PlainEngine,
) -> usize {
    let order = order::read(row, at);
    let rule = order.rule;
    let ran = engine.run(m, table, rule, order.fuel);
    expect_ran(row, order.next, m, ran)
}

// Compares the answer of a run, and the engine after it.
fn expect_ran(row: &[u64], at: usize, m: Machine, ran: Ran<PlainEngine>) -> usize {
    let answer = ran.answer;
    let engine = ran.engine;
    let at = answers::expect_answer(row, at, answer);
    engines::expect_plain(row, at, engine, m.tapes)
}

// Replays the same run over packed words.
pub(crate) fn replay_fast(
    row: &[u64],
    at: usize,
    m: Machine,
    table: &[u8],
    engine: PlainEngine,
) -> usize {
    let order = order::read(row, at);
    let rule = order.rule;
    let mut words: [u64; PLACES] = [0; PLACES];
    // Where packing is refused, the words are no packed table, and the run is refused too.
    let _ = m.pack(table, &mut words);
    let packed = lists::head(&words, table.len() / 8);
    let ran = engine.run_packed(m, table, packed, rule, order.fuel);
    expect_ran(row, order.next, m, ran)
}

// Replays one step.
pub(crate) fn replay_step(
    row: &[u64],
    at: usize,
    m: Machine,
    table: &[u8],
    engine: PlainEngine,
) -> usize {
    let before = engine.sim;
    let mut c0 = engine.c0;
    let mut c1 = engine.c1;
    let mut c2 = engine.c2;
    let stepped = before.step(m, table, &mut c0, &mut c1, &mut c2);
    let sim = stepped.sim;
    let answer = stepped.answer;
    let at = answers::expect_step(row, at, answer);
    engines::expect_plain(row, at, PlainEngine { sim, c0, c1, c2 }, m.tapes)
}
