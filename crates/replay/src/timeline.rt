// Cases of a timeline over an engine.
use crate::compare::answers;
use crate::lent::Engine;
use crate::read::timeline;
use crate::read::timeline::Settings;
use crate::rows;
use crate::rows::STORE;
use machine::Machine;

// A timeline after some calls, its engine, and the places of the next call and of its answer.
#[derive(Clone, Copy)]
struct Walk<E, T> {
    timeline: T,
    engine: E,
    call: usize,
    answer: usize,
}

// Makes a timeline, and replays its calls.
pub(crate) fn replay<E: Engine>(
    row: &[u64],
    at: usize,
    m: Machine,
    table: &[u8],
    engine: E,
) -> usize {
    let settings = timeline::read(row, at);
    let mut store: [u8; STORE] = [0; STORE];
    let Ok(timeline) = engine.begin(m, table, settings, &mut store) else {
        return rows::DIFFERS;
    };
    let start = Walk {
        timeline,
        engine,
        call: settings.first,
        answer: settings.next,
    };
    replay_calls(row, settings, m, table, start, &mut store)
}

// Makes all calls, and compares the timeline's own numbers after the last.
fn replay_calls<E: Engine>(
    row: &[u64],
    settings: Settings,
    m: Machine,
    table: &[u8],
    start: Walk<E, E::Timeline>,
    store: &mut [u8; STORE],
) -> usize {
    let mut walk = start;
    for _ in 0..settings.count {
        walk = replay_call(row, m, table, walk, store);
    }
    let timeline = walk.timeline;
    answers::expect_times(
        row,
        walk.answer,
        settings,
        E::times(timeline),
        E::counted(timeline),
    )
}

// Makes a call, and compares its answer and the engine after it.
fn replay_call<E: Engine>(
    row: &[u64],
    m: Machine,
    table: &[u8],
    walk: Walk<E, E::Timeline>,
    store: &mut [u8; STORE],
) -> Walk<E, E::Timeline> {
    let next = timeline::call_at(row, walk.call);
    let called = walk.engine.call(walk.timeline, m, table, store, next);
    let at = answers::expect_answer(row, walk.answer, called.answer);
    let engine = called.engine;
    Walk {
        timeline: called.timeline,
        engine,
        call: rows::past(walk.call, 2),
        answer: engine.expect(row, at, m),
    }
}
