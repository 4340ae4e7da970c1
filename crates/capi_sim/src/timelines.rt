// A timeline over the plain engine: a new one, and its calls. Its store of slots is lent, as the cells are.
ghost use Rattle.std.specs.Prelude.{◌≡◌};
ghost use Rattle.sim.specs.Model.Engine.{conf};
ghost use Rattle.timeline_rule.specs.Model.Timeline.{call_for};
ghost use Rattle.timeline_rule.specs.Model.Kind.{call_on, new_with};
ghost use Rattle.sim_slots.specs.Model.Kind.{plain_kind};
ghost use Rattle.sim_timeline.specs.Model.{with_lent, tl};
ghost use Rattle.capi_engines.specs.Model.Engines.{engine_of, times_from};
ghost use Rattle.capi_numbers.specs.Model.Timelines.{timeline_new, timeline_new_call};
ghost use Rattle.capi_sim.specs.Model.Timelines.{timeline_call, moved_call};

use super::hand_back;
use capi_numbers::answers;
use machine::Machine;
use sim_timeline::Timeline;

pub fn new(
    m: Machine,
    table: &[u8],
    c0: &[u8],
    c1: &[u8],
    c2: &[u8],
    store: &mut [u8],
    state: u16,
    engine: &[u64; 16],
    times: &mut [u64; 4],
    most: u64,
    every: u64,
    out: &mut [u64; 8],
) -> u8
    ensures { timeline_new result times.new out.new store.new ≡ timeline_new_call plain_kind (new_with plain_kind m table.now most every (conf (engine_of state engine.now) c0.now c1.now c2.now) store.old) times.old out.old }
{
    let sim = capi_engines::engine_of(state, engine);
    let begun = Timeline::new(sim, m, table, c0, c1, c2, store, most, every);
    match begun {
        Ok(timeline) => {
            capi_engines::put_times(times, timeline.times);
            return 0;
        }
        Err(why) => {
            return answers::refuse(out, why);
        }
    }
}

pub fn call(
    m: Machine,
    table: &[u8],
    c0: &mut [u8],
    c1: &mut [u8],
    c2: &mut [u8],
    store: &mut [u8],
    state: &mut u16,
    engine: &mut [u64; 16],
    times: &mut [u64; 4],
    which: u8,
    number: u64,
    out: &mut [u64; 8],
) -> u8
    ensures { timeline_call result state.new engine.new times.new out.new c0.new c1.new c2.new store.new ≡ moved_call (call_on plain_kind m table.now (with_lent (tl (engine_of state.old engine.old) (times_from times.old)) c0.old c1.old c2.old store.old) (call_for which number)) engine.old times.old out.old }
{
    let timeline = Timeline {
        engine: capi_engines::engine_of(*state, engine),
        times: capi_engines::times_of(times),
    };
    let answered = timeline.call(m, table, c0, c1, c2, store, which as u64, number);
    let after = answered.timeline;
    let answer = answered.answer;
    capi_engines::put_times(times, after.times);
    hand_back(after.engine, answer, state, engine, out)
}
