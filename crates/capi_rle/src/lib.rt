// The calls of the run-length engine and of its timeline, on numbers and slices, for the functions with C linkage: a
// fresh engine, and a run. Each returns 0, or the number of its refusal.
#![tactic(auto)]

pub mod questions;
pub mod timelines;

ghost use Rattle.std.specs.Prelude.{◌≡◌};
ghost use Rattle.rle.specs.Model.Engine.{conf};
ghost use Rattle.rle.specs.Model.Operations.{new_answer, run_answer};
ghost use Rattle.capi_engines.specs.Model.Engines.{chain_of, rule_of};
ghost use Rattle.capi_rle.specs.Model.Calls.{chain_call, HandedBack, chain_new_call, chain_ran_call};

use capi_numbers::answers;
use machine::Machine;
use outcome::{Outcome, Refusal};
use rle::ChainSim;

// Makes a fresh engine.
pub fn new(
    m: Machine,
    table: &[u8],
    word: &[u8],
    ls: &[u8],
    ll: &[u64],
    rs: &mut [u8],
    rl: &mut [u64],
    state: &mut u16,
    cur: &mut u8,
    engine: &mut [u64; 7],
    out: &mut [u64; 8],
) -> u8
    ensures { chain_call result state.new cur.new engine.new out.new ls.now ll.now rs.new rl.new ≡ chain_new_call (new_answer m table.now word.now ls.now ll.now rs.old rl.old) state.old cur.old engine.old out.old ls.now ll.now }
{
    let fresh = ChainSim::new(m, table, word, ls, ll, rs, rl);
    match fresh {
        Ok(sim) => {
            *state = sim.state.0;
            *cur = sim.tape.cur;
            capi_engines::put_chain(engine, sim);
            return 0;
        }
        Err(why) => {
            return answers::refuse(out, why);
        }
    }
}

// Stores the engine after a run, and the run's answer, as numbers.
fn hand_back(
    after: ChainSim,
    answer: Result<Outcome, Refusal>,
    state: &mut u16,
    cur: &mut u8,
    engine: &mut [u64; 7],
    out: &mut [u64; 8],
) -> u8
    ensures { HandedBack after answer engine.old out.old result state.new cur.new engine.new out.new }
{
    *state = after.state.0;
    *cur = after.tape.cur;
    capi_engines::put_chain(engine, after);
    answers::put_result(out, answer)
}

// Runs over the table, with a stop rule and fuel.
pub fn run(
    m: Machine,
    table: &[u8],
    ls: &mut [u8],
    ll: &mut [u64],
    rs: &mut [u8],
    rl: &mut [u64],
    state: &mut u16,
    cur: &mut u8,
    engine: &mut [u64; 7],
    rule: u64,
    fuel: u64,
    out: &mut [u64; 8],
) -> u8
    ensures { chain_call result state.new cur.new engine.new out.new ls.new ll.new rs.new rl.new ≡ chain_ran_call (run_answer m table.now (rule_of rule) fuel (conf (chain_of state.old cur.old engine.old) ls.old ll.old rs.old rl.old)) engine.old out.old }
{
    let sim = capi_engines::chain_of(*state, *cur, engine);
    let stop = capi_engines::rule_of(rule);
    let ran = sim.run(m, table, ls, ll, rs, rl, stop, fuel);
    let answer = ran.answer;
    hand_back(ran.sim, answer, state, cur, engine, out)
}
