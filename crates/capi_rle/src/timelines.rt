// A timeline over the run-length engine: a new one, and its calls. Its store of slots is lent, as the run places are.
ghost use Rattle.std.specs.Prelude.{◌≡◌};
ghost use Rattle.rle.specs.Model.Engine.{conf};
ghost use Rattle.timeline_rule.specs.Model.Timeline.{call_for};
ghost use Rattle.timeline_rule.specs.Model.Kind.{call_on, new_with};
ghost use Rattle.rle_slots.specs.Model.Kind.{chain_kind};
ghost use Rattle.rle_timeline.specs.Model.{with_lent, tl};
ghost use Rattle.capi_engines.specs.Model.Engines.{chain_of, times_from};
ghost use Rattle.capi_numbers.specs.Model.Timelines.{timeline_new, timeline_new_call};
ghost use Rattle.capi_rle.specs.Model.Timelines.{chain_timeline_call, chain_moved_call};

use super::hand_back;
use capi_numbers::answers;
use machine::Machine;
use rle_timeline::Timeline;

pub fn new(
    m: Machine,
    table: &[u8],
    ls: &[u8],
    ll: &[u64],
    rs: &[u8],
    rl: &[u64],
    store: &mut [u8],
    state: u16,
    cur: u8,
    engine: &[u64; 7],
    times: &mut [u64; 4],
    most: u64,
    every: u64,
    out: &mut [u64; 8],
) -> u8
    ensures { timeline_new result times.new out.new store.new ≡ timeline_new_call chain_kind (new_with chain_kind m table.now most every (conf (chain_of state cur engine.now) ls.now ll.now rs.now rl.now) store.old) times.old out.old }
{
    let sim = capi_engines::chain_of(state, cur, engine);
    let begun = Timeline::new(sim, m, table, ls, ll, rs, rl, store, most, every);
    match begun {
        Ok(timeline) => {
            capi_engines::put_times(times, timeline.times);
            return 0;
        }
        Err(why) => {
            return answers::refuse(out, why);
        }
    }
}

pub fn call(
    m: Machine,
    table: &[u8],
    ls: &mut [u8],
    ll: &mut [u64],
    rs: &mut [u8],
    rl: &mut [u64],
    store: &mut [u8],
    state: &mut u16,
    cur: &mut u8,
    engine: &mut [u64; 7],
    times: &mut [u64; 4],
    which: u8,
    number: u64,
    out: &mut [u64; 8],
) -> u8
    ensures { chain_timeline_call result state.new cur.new engine.new times.new out.new ls.new ll.new rs.new rl.new store.new ≡ chain_moved_call (call_on chain_kind m table.now (with_lent (tl (chain_of state.old cur.old engine.old) (times_from times.old)) ls.old ll.old rs.old rl.old store.old) (call_for which number)) engine.old times.old out.old }
{
    let timeline = Timeline {
        engine: capi_engines::chain_of(*state, *cur, engine),
        times: capi_engines::times_of(times),
    };
    let answered = timeline.call(m, table, ls, ll, rs, rl, store, which as u64, number);
    let after = answered.timeline;
    let answer = answered.answer;
    capi_engines::put_times(times, after.times);
    hand_back(after.engine, answer, state, cur, engine, out)
}
