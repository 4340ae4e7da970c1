// The calls of the plain engine and of its timeline, on numbers and slices, for the functions with C linkage: a fresh
// engine, one step, and a run over the table or over its packed words. Each returns 0, or the number of its refusal.
#![tactic(auto)]

pub mod questions;
pub mod timelines;

ghost use Rattle.std.specs.Prelude.{◌≡◌};
ghost use Rattle.sim.specs.Model.Engine.{conf};
ghost use Rattle.sim.specs.Model.Operations.{new_answer, step_answer, run_answer, fast_answer};
ghost use Rattle.capi_engines.specs.Model.Engines.{engine_of, rule_of};
ghost use Rattle.capi_sim.specs.Model.Calls.{call, HandedBack, new_call, step_call, ran_call};

use capi_numbers::answers;
use machine::Machine;
use outcome::{Outcome, Refusal};
use sim::Simulator;

// Makes a fresh engine.
pub fn new(
    m: Machine,
    table: &[u8],
    word: &[u8],
    c0: &mut [u8],
    c1: &mut [u8],
    c2: &mut [u8],
    state: &mut u16,
    engine: &mut [u64; 16],
    out: &mut [u64; 8],
) -> u8
    ensures { call result state.new engine.new out.new c0.new c1.new c2.new ≡ new_call (new_answer m table.now word.now c0.old c1.old c2.old) state.old engine.old out.old }
{
    let fresh = Simulator::new(m, table, word, c0, c1, c2);
    match fresh {
        Ok(sim) => {
            *state = sim.state.0;
            capi_engines::put_engine(engine, sim);
            return 0;
        }
        Err(why) => {
            return answers::refuse(out, why);
        }
    }
}

// Makes one step.
pub fn step(
    m: Machine,
    table: &[u8],
    c0: &mut [u8],
    c1: &mut [u8],
    c2: &mut [u8],
    state: &mut u16,
    engine: &mut [u64; 16],
    out: &mut [u64; 8],
) -> u8
    ensures { call result state.new engine.new out.new c0.new c1.new c2.new ≡ step_call (step_answer m table.now (conf (engine_of state.old engine.old) c0.old c1.old c2.old)) engine.old out.old }
{
    let sim = capi_engines::engine_of(*state, engine);
    let stepped = sim.step(m, table, c0, c1, c2);
    let after = stepped.sim;
    let answer = stepped.answer;
    *state = after.state.0;
    capi_engines::put_engine(engine, after);
    answers::put_result(out, answer)
}

// Stores the engine after a run, and the run's answer, as numbers.
fn hand_back(
    after: Simulator,
    answer: Result<Outcome, Refusal>,
    state: &mut u16,
    engine: &mut [u64; 16],
    out: &mut [u64; 8],
) -> u8
    ensures { HandedBack after answer engine.old out.old result state.new engine.new out.new }
{
    *state = after.state.0;
    capi_engines::put_engine(engine, after);
    answers::put_result(out, answer)
}

// Runs over the table, with a stop rule and fuel.
pub fn run(
    m: Machine,
    table: &[u8],
    c0: &mut [u8],
    c1: &mut [u8],
    c2: &mut [u8],
    state: &mut u16,
    engine: &mut [u64; 16],
    rule: u64,
    fuel: u64,
    out: &mut [u64; 8],
) -> u8
    ensures { call result state.new engine.new out.new c0.new c1.new c2.new ≡ ran_call (run_answer m table.now (rule_of rule) fuel (conf (engine_of state.old engine.old) c0.old c1.old c2.old)) engine.old out.old }
{
    let sim = capi_engines::engine_of(*state, engine);
    let stop = capi_engines::rule_of(rule);
    let ran = sim.run(m, table, c0, c1, c2, stop, fuel);
    let answer = ran.answer;
    hand_back(ran.sim, answer, state, engine, out)
}

// The same over packed words.
pub fn run_packed(
    m: Machine,
    table: &[u8],
    words: &[u64],
    c0: &mut [u8],
    c1: &mut [u8],
    c2: &mut [u8],
    state: &mut u16,
    engine: &mut [u64; 16],
    rule: u64,
    fuel: u64,
    out: &mut [u64; 8],
) -> u8
    ensures { call result state.new engine.new out.new c0.new c1.new c2.new ≡ ran_call (fast_answer m table.now words.now (rule_of rule) fuel (conf (engine_of state.old engine.old) c0.old c1.old c2.old)) engine.old out.old }
{
    let sim = capi_engines::engine_of(*state, engine);
    let stop = capi_engines::rule_of(rule);
    let ran = sim.run_packed(m, table, words, c0, c1, c2, stop, fuel);
    let answer = ran.answer;
    hand_back(ran.sim, answer, state, engine, out)
}
