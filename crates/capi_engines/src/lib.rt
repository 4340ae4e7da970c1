// Engines as numbers, and a timeline's own numbers, as they cross the C boundary.
#![tactic(auto)]

ghost use Rattle.std.specs.Prelude.{◌≡◌, ◌+◌, ◌≤◌, ◌<◌};
ghost use Rattle.capi_engines.specs.Model.Engines.{machine_of, tape_from, engine_of, with_tape, with_engine, rule_of, chain_of, with_chain, times_from, with_times};

use machine::Machine;
use rle::{ChainSim, RunTape};
use sim::Simulator;
use symbol::State;
use tape::Tape;
use timeline_rule::Times;

pub fn machine_of(tapes: u64, symbols: u64, states: u64, start: u64) -> Machine
    ensures { result ≡ machine_of tapes symbols states start }
{
    Machine {
        tapes,
        symbols,
        states,
        start,
    }
}

fn tape_from(xs: &[u64; 16], i: usize) -> Tape
    requires { i ≤ 11 }
    ensures { result ≡ tape_from xs.now i }
{
    Tape {
        len: xs[i] as usize,
        origin: xs[i + 1] as usize,
        head: xs[i + 2] as usize,
        lowest: xs[i + 3] as usize,
        highest: xs[i + 4] as usize,
    }
}

pub fn engine_of(state: u16, xs: &[u64; 16]) -> Simulator
    ensures { result ≡ engine_of state xs.now }
{
    let t0 = tape_from(xs, 1);
    let t1 = tape_from(xs, 6);
    let t2 = tape_from(xs, 11);
    Simulator {
        state: State(state),
        steps: xs[0],
        t0,
        t1,
        t2,
    }
}

fn put_tape(xs: &mut [u64; 16], i: usize, t: Tape)
    requires { i ≤ 11 }
    ensures { xs.new ≡ with_tape xs.old i t }
{
    xs[i] = t.len as u64;
    xs[i + 1] = t.origin as u64;
    xs[i + 2] = t.head as u64;
    xs[i + 3] = t.lowest as u64;
    xs[i + 4] = t.highest as u64;
}

pub fn put_engine(xs: &mut [u64; 16], v: Simulator)
    ensures { xs.new ≡ with_engine xs.old v }
{
    let t0 = v.t0;
    let t1 = v.t1;
    let t2 = v.t2;
    xs[0] = v.steps;
    put_tape(xs, 1, t0);
    put_tape(xs, 6, t1);
    put_tape(xs, 11, t2);
}

pub fn rule_of(n: u64) -> Option<State>
    ensures { result ≡ rule_of n }
{
    if n < 65536 {
        return Some(State(n as u16));
    }
    None
}

pub fn chain_of(state: u16, cur: u8, xs: &[u64; 7]) -> ChainSim
    ensures { result ≡ chain_of state cur xs.now }
{
    ChainSim {
        state: State(state),
        steps: xs[0],
        macros: xs[1],
        tape: RunTape {
            left: xs[2] as usize,
            cur,
            right: xs[3] as usize,
            head: xs[4],
        },
        lowest: xs[5],
        highest: xs[6],
    }
}

pub fn put_chain(xs: &mut [u64; 7], v: ChainSim)
    ensures { xs.new ≡ with_chain xs.old v }
{
    let tape = v.tape;
    xs[0] = v.steps;
    xs[1] = v.macros;
    xs[2] = tape.left as u64;
    xs[3] = tape.right as u64;
    xs[4] = tape.head;
    xs[5] = v.lowest;
    xs[6] = v.highest;
}

pub fn times_of(xs: &[u64; 4]) -> Times
    ensures { result ≡ times_from xs.now }
{
    Times {
        most: xs[0],
        first: xs[1],
        count: xs[2],
        every: xs[3],
    }
}

pub fn put_times(xs: &mut [u64; 4], v: Times)
    ensures { xs.new ≡ with_times xs.old v }
{
    xs[0] = v.most;
    xs[1] = v.first;
    xs[2] = v.count;
    xs[3] = v.every;
}
