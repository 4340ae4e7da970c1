// How to call the library from Rattle: document 01's listing table on the blank word, by both engines and a timeline.
#![tactic(auto)]

ghost use Rattle.std.specs.Prelude.{◌<◌};

use machine::Machine;
use rle::ChainSim;
use sim::Simulator;
use sim_timeline::Timeline;
use std::io;
use symbol::{Dir, State};

mod print;

// Defines an entry. Entry q * symbols + a says what state q does when it reads a. The 24 is the moves N of the two
// tapes that the machine lacks.
fn define(table: &mut [u8; 48], entry: usize, write: u8, dir: Dir, next: u8)
    requires { entry < 6 }
{
    let at = entry * 8;
    table[at] = 1;
    table[at + 1] = next;
    table[at + 3] = write;
    table[at + 6] = dir.number() + 24;
}

// The cells lie in buffers lent to each call, one for each tape. The buffer of a tape that the machine lacks may have
// any size. The engine goes in by value and comes back with the answer, so the second run continues where the first
// ended.
fn run_twice(rt: &impl Print, m: Machine, table: &[u8; 48]) -> io::Result<()> {
    let mut c0 = [0u8; 64];
    let mut c1 = [0u8; 1];
    let mut c2 = [0u8; 1];
    match Simulator::new(m, table, b"", &mut c0, &mut c1, &mut c2) {
        Err(why) => print::refused(rt, why),
        Ok(sim) => {
            let first = sim.run(m, table, &mut c0, &mut c1, &mut c2, None, 5);
            let sim = print::ran(rt, "plain, fuel 5: ", first)?;
            let second = sim.run(m, table, &mut c0, &mut c1, &mut c2, None, 5);
            print::ran(rt, "plain, fuel 5 again: ", second)?;
            Ok(())
        }
    }
}

// A timeline keeps up to 8 checkpoints, 16 steps apart at first, in a store of 8 + 1 slots. A slot is 128 bytes larger
// than the buffer of cells.
fn travel(rt: &impl Print, m: Machine, table: &[u8; 48]) -> io::Result<()> {
    let mut c0 = [0u8; 64];
    let mut c1 = [0u8; 1];
    let mut c2 = [0u8; 1];
    let mut store = [0u8; 1728];
    match Simulator::new(m, table, b"", &mut c0, &mut c1, &mut c2) {
        Err(why) => print::refused(rt, why),
        Ok(sim) => {
            match Timeline::new(sim, m, table, &c0, &c1, &c2, &mut store, 8, 16) {
                Err(why) => print::refused(rt, why),
                Ok(t) => moves(rt, t, m, table, &mut c0, &mut c1, &mut c2, &mut store),
            }
        }
    }
}

fn moves(
    rt: &impl Print,
    t: Timeline,
    m: Machine,
    table: &[u8; 48],
    c0: &mut [u8; 64],
    c1: &mut [u8; 1],
    c2: &mut [u8; 1],
    store: &mut [u8; 1728],
) -> io::Result<()> {
    let went = t.seek(m, table, c0, c1, c2, store, 3);
    let t = print::moved(rt, "timeline, seek 3: ", went)?;
    let went = t.back(m, table, c0, c1, c2, store, 1);
    let t = print::moved(rt, "timeline, back 1: ", went)?;
    let went = t.forward(m, table, c0, c1, c2, store, 100);
    print::moved(rt, "timeline, forward 100: ", went)?;
    Ok(())
}

// The run-length engine keeps runs on each side of the head, symbols beside lengths. It tests its stop rule before a
// step; the plain engine tests it after the step, and would stop at 2.
fn stop_on_state_1(rt: &impl Print, m: Machine, table: &[u8; 48]) -> io::Result<()> {
    let mut ls = [0u8; 16];
    let mut ll = [0u64; 16];
    let mut rs = [0u8; 16];
    let mut rl = [0u64; 16];
    match ChainSim::new(m, table, b"", &ls, &ll, &mut rs, &mut rl) {
        Err(why) => print::refused(rt, why),
        Ok(sim) => {
            let rule = Some(State(1));
            let ran = sim.run(m, table, &mut ls, &mut ll, &mut rs, &mut rl, rule, 5);
            let answer = ran.answer;
            print::told(rt, "run-length, stop on state 1, fuel 5: ", answer)
        }
    }
}

fn main(rt: HostRuntime) -> io::Result<()> {
    let m = Machine {
        tapes: 1,
        symbols: 2,
        states: 3,
        start: 0,
    };
    // State 2 has no entries: the machine halts there.
    let mut table = [0u8; 48];
    define(&mut table, 0, 1, Dir::R, 1);
    define(&mut table, 1, 1, Dir::L, 1);
    define(&mut table, 2, 1, Dir::L, 0);
    define(&mut table, 3, 1, Dir::R, 2);
    run_twice(&rt, m, &table)?;
    travel(&rt, m, &table)?;
    stop_on_state_1(&rt, m, &table)
}
