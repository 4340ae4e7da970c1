// The plain engine: a fresh engine, one step, and a run over the table or over its packed words.
ghost use Rattle.std.specs.Prelude.{◌≡◌};
ghost use Rattle.sim.specs.Model.Engine.{conf};
ghost use Rattle.sim.specs.Model.Operations.{new_answer, step_answer, run_answer, fast_answer};
ghost use Rattle.capi_engines.specs.Model.Engines.{machine_of, engine_of, rule_of};
ghost use Rattle.capi_sim.specs.Model.Calls.{call, new_call, step_call, ran_call};

use machine::Machine;

#[unsafe(no_mangle)]
pub extern "C" fn tm_sim_new(
    tapes: u64,
    symbols: u64,
    states: u64,
    start: u64,
    table: &[u8],
    word: &[u8],
    c0: &mut [u8],
    c1: &mut [u8],
    c2: &mut [u8],
    state: &mut u16,
    engine: &mut [u64; 16],
    out: &mut [u64; 8],
) -> u8
    ensures { call result state.new engine.new out.new c0.new c1.new c2.new ≡ new_call (new_answer (machine_of tapes symbols states start) table.now word.now c0.old c1.old c2.old) state.old engine.old out.old }
{
    let m = Machine {
        tapes,
        symbols,
        states,
        start,
    };
    capi_sim::new(m, table, word, c0, c1, c2, state, engine, out)
}

#[unsafe(no_mangle)]
pub extern "C" fn tm_sim_step(
    tapes: u64,
    symbols: u64,
    states: u64,
    start: u64,
    table: &[u8],
    c0: &mut [u8],
    c1: &mut [u8],
    c2: &mut [u8],
    state: &mut u16,
    engine: &mut [u64; 16],
    out: &mut [u64; 8],
) -> u8
    ensures { call result state.new engine.new out.new c0.new c1.new c2.new ≡ step_call (step_answer (machine_of tapes symbols states start) table.now (conf (engine_of state.old engine.old) c0.old c1.old c2.old)) engine.old out.old }
{
    let m = Machine {
        tapes,
        symbols,
        states,
        start,
    };
    capi_sim::step(m, table, c0, c1, c2, state, engine, out)
}

#[unsafe(no_mangle)]
pub extern "C" fn tm_sim_run(
    tapes: u64,
    symbols: u64,
    states: u64,
    start: u64,
    table: &[u8],
    c0: &mut [u8],
    c1: &mut [u8],
    c2: &mut [u8],
    state: &mut u16,
    engine: &mut [u64; 16],
    rule: u64,
    fuel: u64,
    out: &mut [u64; 8],
) -> u8
    ensures { call result state.new engine.new out.new c0.new c1.new c2.new ≡ ran_call (run_answer (machine_of tapes symbols states start) table.now (rule_of rule) fuel (conf (engine_of state.old engine.old) c0.old c1.old c2.old)) engine.old out.old }
{
    let m = Machine {
        tapes,
        symbols,
        states,
        start,
    };
    capi_sim::run(m, table, c0, c1, c2, state, engine, rule, fuel, out)
}

#[unsafe(no_mangle)]
pub extern "C" fn tm_sim_run_packed(
    tapes: u64,
    symbols: u64,
    states: u64,
    start: u64,
    table: &[u8],
    words: &[u64],
    c0: &mut [u8],
    c1: &mut [u8],
    c2: &mut [u8],
    state: &mut u16,
    engine: &mut [u64; 16],
    rule: u64,
    fuel: u64,
    out: &mut [u64; 8],
) -> u8
    ensures { call result state.new engine.new out.new c0.new c1.new c2.new ≡ ran_call (fast_answer (machine_of tapes symbols states start) table.now words.now (rule_of rule) fuel (conf (engine_of state.old engine.old) c0.old c1.old c2.old)) engine.old out.old }
{
    let m = Machine {
        tapes,
        symbols,
        states,
        start,
    };
    capi_sim::run_packed(m, table, words, c0, c1, c2, state, engine, rule, fuel, out)
}
