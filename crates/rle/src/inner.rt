// The inner functions of the engine's operations. They require that its live runs have places and that its counts are
// in bounds.
pub mod fits;

ghost use Rattle.std.specs.Prelude.{◌≡◌};
ghost use Rattle.notation.specs.Choice.{both};
ghost use Rattle.run_checks.specs.Model.Look.{entry_of};
ghost use Rattle.run_rules.specs.Model.Task.{task};
ghost use Rattle.rle.specs.Model.Engine.{conf, loops_of, fueled_of, turn_of, end, run_of};
ghost use Rattle.rle.specs.Invariants.{TableOk, CountsOk, RunOk, Judged, landed_by};

use super::{ChainSim, RunTape};
use machine::{Action, Machine};
use outcome::Outcome;
use rle_macro::inner::macro_step;
use rle_macro::inner::macro_step::{Moved, Step};
use rle_stack::inner as stack;
use std::ops::ControlFlow;
use symbol::State;

// An engine after a run, and how the run ended.
#[derive(Clone, Copy)]
pub struct Ran {
    pub sim: ChainSim,
    pub outcome: Outcome,
}

// A machine and its table, with the number of entries of a state.
#[derive(Clone, Copy)]
pub struct Table<'a> {
    pub m: Machine,
    pub stride: u64,
    pub entries: &'a [u8],
    pub ghost ok: { TableOk m stride },
}

// The entry for a state and the symbol read.
fn entry_of(t: Table, q: State, cur: u8) -> Option<Action>
    ensures { result ≡ entry_of t.entry.m t.entry.entries.now q cur 0 0 }
{
    let number = machine::inner::entry_number(t.m.symbols, t.stride, q.0, cur, 0, 0);
    machine::inner::entry_at(t.entries, number as usize)
}

// Whether an entry is a proved loop.
fn loops_on(q: State, a: Action, cur: u8, left: usize, right: usize) -> bool
    ensures { result ≡ loops_of q a cur left right }
{
    if a.next != q {
        return false;
    }
    let dir = a.dir0;
    macro_step::loops(dir, a.write0.0, cur, left, right)
}

// Whether the run ends by a proved loop: the entry is one, and the never test is made.
fn asked(loops: bool, proves: bool) -> bool
    ensures { result ≡ both loops proves }
{
    loops && proves
}

impl ChainSim {
    // Where the run does not end by a proved loop: tests fuel, then the stop rule; else gives the entry to follow.
    fn fueled(
        self,
        loops: bool,
        rule: Option<State>,
        a: Action,
        fuel: u64,
    ) -> ControlFlow<Outcome, Step>
        ensures { result ≡ fueled_of loops rule a fuel self }
    {
        let steps = self.steps;
        let state = self.state;
        if fuel == 0 {
            return ControlFlow::Break(Outcome::OutOfFuel { steps });
        }
        if run_rules::inner::matches(rule, state) {
            return ControlFlow::Break(Outcome::Stopped { steps });
        }
        let dir = a.dir0;
        let next = a.next;
        let keeps = a.next == state;
        ControlFlow::Continue(Step {
            write: a.write0.0,
            dir,
            next,
            keeps,
            loops,
        })
    }

    // Tests halted, never, fuel and the stop rule, in that order; else gives the entry to follow.
    fn decide(
        self,
        t: Table,
        proves: bool,
        rule: Option<State>,
        fuel: u64,
    ) -> ControlFlow<Outcome, Step>
        ensures { result ≡ turn_of (task t.entry.m t.entry.entries.now proves rule) fuel self }
    {
        let tape = self.tape;
        let steps = self.steps;
        let state = self.state;
        let found = entry_of(t, state, tape.cur);
        match found {
            None => {
                return ControlFlow::Break(Outcome::Halted { steps, state });
            }
            Some(a) => {
                let loops = loops_on(state, a, tape.cur, tape.left, tape.right);
                if asked(loops, proves) {
                    let dir = a.dir0;
                    let proof = macro_step::proof_of(state, dir);
                    return ControlFlow::Break(Outcome::NeverHalts { steps, proof });
                }
                return self.fueled(loops, rule, a, fuel);
            }
        }
    }

    // The value after a macro step that leaves these numbers of live runs.
    fn landed(self, s: Step, left: usize, right: usize, w: Moved) -> ChainSim
        requires { CountsOk self w.repeats }
        ensures { result ≡ landed_by s.dir s.next self left w.cur right w.repeats }
    {
        let head = macro_step::head_for(s.dir, self.tape.head, w.repeats);
        ChainSim {
            state: s.next,
            steps: self.steps + w.repeats,
            macros: self.macros + 1,
            tape: RunTape {
                left,
                cur: w.cur,
                right,
                head,
            },
            lowest: self.lowest.min(head),
            highest: self.highest.max(head),
        }
    }

    // Runs by macro steps. `repeats` is 0 where a macro step has no place for its push; the run then ends full.
    pub(crate) fn run_macro_steps(
        mut self,
        t: Table,
        proves: bool,
        rule: Option<State>,
        ls: &mut [u8],
        ll: &mut [u64],
        rs: &mut [u8],
        rl: &mut [u64],
        fuel: u64,
    ) -> Ran
        requires { RunOk t.m t.stride (conf self ls.old ll.old rs.old rl.old) fuel }
        ensures { end (conf result.sim ls.new ll.new rs.new rl.new) result.outcome ≡ run_of (task t.entry.m t.entry.entries.now proves rule) fuel (conf self ls.old ll.old rs.old rl.old) }
    {
        let mut left = stack::side_to_write(ls, ll, self.tape.left);
        let mut right = stack::side_to_write(rs, rl, self.tape.right);
        let mut rest = fuel;
        loop {
            let turn = self.decide(t, proves, rule, rest);
            match turn {
                ControlFlow::Break(outcome) => {
                    return Ran { sim: self, outcome };
                }
                ControlFlow::Continue(s) => {
                    let w = macro_step::make(s, &mut left, self.tape.cur, &mut right, rest);
                    if w.repeats == 0 {
                        let steps = self.steps;
                        return Ran {
                            sim: self,
                            outcome: Outcome::Full { steps },
                        };
                    }
                    self = self.landed(s, left.count, right.count, w);
                    rest -= w.repeats;
                }
            }
        }
    }
}

// Runs. The caller must have checked the table, the value and the fuel. Without the never test a proved loop covers all
// the fuel in one macro step.
pub fn run_all(
    sim: ChainSim,
    t: Table,
    proves: bool,
    rule: Option<State>,
    ls: &mut [u8],
    ll: &mut [u64],
    rs: &mut [u8],
    rl: &mut [u64],
    fuel: u64,
) -> Ran
    requires { RunOk t.m t.stride (conf sim ls.old ll.old rs.old rl.old) fuel }
    ensures { end (conf result.sim ls.new ll.new rs.new rl.new) result.outcome ≡ run_of (task t.entry.m t.entry.entries.now proves rule) fuel (conf sim ls.old ll.old rs.old rl.old) }
{
    sim.run_macro_steps(t, proves, rule, ls, ll, rs, rl, fuel)
}

// The verdict: how a run with fuel 0 ends here.
pub fn verdict(sim: ChainSim, t: Table) -> Outcome
    ensures { Judged t.entry.m t.entry.entries.now sim result }
{
    let tape = sim.tape;
    let steps = sim.steps;
    let state = sim.state;
    let found = entry_of(t, state, tape.cur);
    match found {
        None => {
            return Outcome::Halted { steps, state };
        }
        Some(a) => {
            if loops_on(state, a, tape.cur, tape.left, tape.right) {
                let dir = a.dir0;
                let proof = macro_step::proof_of(state, dir);
                return Outcome::NeverHalts { steps, proof };
            }
            return Outcome::OutOfFuel { steps };
        }
    }
}
