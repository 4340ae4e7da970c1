// A timeline over the plain engine: a new one, and its calls. Its store of slots is lent, as the cells are.
ghost use Rattle.std.specs.Prelude.{◌≡◌};
ghost use Rattle.sim.specs.Model.Engine.{conf};
ghost use Rattle.timeline_rule.specs.Model.Timeline.{call_for};
ghost use Rattle.timeline_rule.specs.Model.Kind.{call_on, new_with};
ghost use Rattle.sim_slots.specs.Model.Kind.{plain_kind};
ghost use Rattle.sim_timeline.specs.Model.{with_lent, tl};
ghost use Rattle.capi_engines.specs.Model.Engines.{machine_of, engine_of, times_from};
ghost use Rattle.capi_numbers.specs.Model.Timelines.{timeline_new, timeline_new_call};
ghost use Rattle.capi_sim.specs.Model.Timelines.{timeline_call, moved_call};

use capi_sim::timelines;
use machine::Machine;

#[unsafe(no_mangle)]
pub extern "C" fn tm_sim_timeline_new(
    tapes: u64,
    symbols: u64,
    states: u64,
    start: u64,
    table: &[u8],
    c0: &[u8],
    c1: &[u8],
    c2: &[u8],
    store: &mut [u8],
    state: u16,
    engine: &[u64; 16],
    times: &mut [u64; 4],
    most: u64,
    every: u64,
    out: &mut [u64; 8],
) -> u8
    ensures { timeline_new result times.new out.new store.new ≡ timeline_new_call plain_kind (new_with plain_kind (machine_of tapes symbols states start) table.now most every (conf (engine_of state engine.now) c0.now c1.now c2.now) store.old) times.old out.old }
{
    let m = Machine {
        tapes,
        symbols,
        states,
        start,
    };
    timelines::new(
        m, table, c0, c1, c2, store, state, engine, times, most, every, out,
    )
}

#[unsafe(no_mangle)]
pub extern "C" fn tm_sim_timeline_call(
    tapes: u64,
    symbols: u64,
    states: u64,
    start: u64,
    table: &[u8],
    c0: &mut [u8],
    c1: &mut [u8],
    c2: &mut [u8],
    store: &mut [u8],
    state: &mut u16,
    engine: &mut [u64; 16],
    times: &mut [u64; 4],
    which: u8,
    number: u64,
    out: &mut [u64; 8],
) -> u8
    ensures { timeline_call result state.new engine.new times.new out.new c0.new c1.new c2.new store.new ≡ moved_call (call_on plain_kind (machine_of tapes symbols states start) table.now (with_lent (tl (engine_of state.old engine.old) (times_from times.old)) c0.old c1.old c2.old store.old) (call_for which number)) engine.old times.old out.old }
{
    let m = Machine {
        tapes,
        symbols,
        states,
        start,
    };
    timelines::call(
        m, table, c0, c1, c2, store, state, engine, times, which, number, out,
    )
}
