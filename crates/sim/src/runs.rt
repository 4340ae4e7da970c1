// The run: bursts of ordinary steps. After each burst the run decides whether it ends or makes one more step.
ghost use Rattle.std.specs.Prelude.{◌≡◌, ◌+◌, ◌-◌, ◌≤◌, ◌<◌, IfSome, Ok};
ghost use Rattle.notation.specs.Limits.{steps_most};
ghost use Rattle.outcome.specs.declared.Outcome.TheVariants.{Stopped};
ghost use Rattle.sim_burst.specs.Model.Words.{WordsOk};
ghost use Rattle.sim.specs.Model.Engine.{task, conf, end, run_of};
ghost use Rattle.sim.specs.Model.Operations.{given, answer_of};
ghost use Rattle.sim.specs.Model.Turns.{RunOk};
ghost use Rattle.sim.specs.Model.Bursts.{Misses, Cleared, burst_start, into, BurstAllowedIf, OneTapeOk, SameRunOne, wide_burst_start, into_wide, SameRun};

use super::{Answered, Simulator};
use machine::Machine;
use outcome::{Outcome, Refusal};
use sim_burst::inner::burst;
use sim_burst::inner::step::BurstState;
use sim_burst_wide::inner as wide;
use sim_burst_wide::inner::WideBurstState;
use std::ops::ControlFlow;
use symbol::State;
use tape::Tape;

// What a run goes by: the machine, a row's length, whether the never test is made, the stop rule, the table, and its
// packed words where the run may go over them.
// The cells of the three tapes stay parameters beside it, as in `Simulator::run`, whose signature may not change.
#[derive(Clone, Copy)]
pub struct Job<'t, 'w> {
    pub m: Machine,
    pub stride: u64,
    pub proves: bool,
    pub rule: Option<State>,
    pub table: &'t [u8],
    pub words: Option<&'w [u64]>,
}

// An engine after a run, and how the run ended.
#[derive(Clone, Copy)]
pub struct Ran {
    pub sim: Simulator,
    pub outcome: Outcome,
}

// An engine after a burst, and the fuel left.
#[derive(Clone, Copy)]
pub struct Ahead {
    pub sim: Simulator,
    pub left: u64,
}

// The state of the stop rule. Where it is Never, this is 65,536, which is no state.
fn stop_of(rule: Option<State>) -> usize
    ensures { Misses rule result }
{
    match rule {
        None => {
            return 65536;
        }
        Some(p) => {
            return p.0 as usize;
        }
    }
}

// The end of a run by the stop rule.
fn stopped(sim: Simulator) -> Ran
    ensures { (result.sim ≡ sim) × (result.outcome ≡ Stopped sim.steps) }
{
    let steps = sim.steps;
    Ran {
        sim,
        outcome: Outcome::Stopped { steps },
    }
}

impl Simulator {
    // Whether a burst may run on this value.
    fn burst_allowed(self, tapes: u64) -> bool
        ensures { BurstAllowedIf result tapes self }
    {
        if tapes != 1 {
            return false;
        }
        let t0 = self.t0;
        t0.lowest <= t0.head
            && t0.head <= t0.highest
            && t0.highest < t0.len
            && self.t1.len <= self.t1.head
            && self.t2.len <= self.t2.head
    }

    // The start of a burst, from this value.
    fn burst_start(self, left: u64) -> BurstState
        ensures { (result ≡ burst_start self left) × (result.state < 65536) }
    {
        let t0 = self.t0;
        let state = self.state.0 as usize;
        BurstState {
            head: t0.head,
            low: t0.lowest,
            high: t0.highest,
            state,
            left,
        }
    }

    // The value after a burst that began with fuel `left`.
    fn after(self, at: BurstState, left: u64) -> Ahead
        requires { (self.steps + left ≤ steps_most) × (at.left ≤ left) × (at.state < 65536) }
        ensures { (result.sim ≡ into self (self.steps + (left - at.left)) at) × (result.left ≡ at.left) }
    {
        let t0 = Tape {
            head: at.head,
            lowest: at.low,
            highest: at.high,
            ..self.t0
        };
        Ahead {
            sim: Simulator {
                state: State(at.state as u16),
                steps: self.steps + (left - at.left),
                t0,
                ..self
            },
            left: at.left,
        }
    }

    // Makes the ordinary steps on one tape, over the words where they are given. Makes none where no burst may run.
    fn burst_one(self, job: Job, stop: usize, c0: &mut [u8], left: u64) -> Ahead
        requires one_tape_ok { OneTapeOk job.m self c0.old left }
        requires words_if { IfSome job.words (λ words. WordsOk job.m job.table.now words.now) }
        ensures { SameRunOne job.entry.m job.entry.table.now job.entry.proves stop self c0.old left result.sim c0.new result.left }
    {
        let m = job.m;
        if !self.burst_allowed(m.tapes) {
            return Ahead { sim: self, left };
        }
        let proves = job.proves;
        let k = m.symbols as usize;
        let len = self.t0.len;
        let start = self.burst_start(left);
        if let Some(entries) = job.words {
            let by = burst::Rules {
                entries,
                proves,
                stop,
                k,
                len,
            };
            let at = burst::burst(by, c0, start);
            return self.after(at, left);
        }
        let by = burst::Rules {
            entries: job.table,
            proves,
            stop,
            k,
            len,
        };
        let at = burst::burst(by, c0, start);
        self.after(at, left)
    }

    // The start of a burst on several tapes, from this value.
    fn wide(self, left: u64) -> WideBurstState
        ensures { result ≡ wide_burst_start self left }
    {
        WideBurstState {
            t0: self.t0,
            t1: self.t1,
            t2: self.t2,
            state: self.state.0,
            left,
        }
    }

    // The value after a burst on several tapes that began with fuel `left`.
    fn onward(self, at: WideBurstState, left: u64) -> Ahead
        requires { (self.steps + left ≤ steps_most) × (at.left ≤ left) }
        ensures { (result.sim ≡ into_wide (self.steps + (left - at.left)) at) × (result.left ≡ at.left) }
    {
        Ahead {
            sim: Simulator {
                state: State(at.state),
                steps: self.steps + (left - at.left),
                t0: at.t0,
                t1: at.t1,
                t2: at.t2,
            },
            left: at.left,
        }
    }

    // Makes the ordinary steps from this value.
    fn burst(
        self,
        job: Job,
        stop: usize,
        c0: &mut [u8],
        c1: &mut [u8],
        c2: &mut [u8],
        left: u64,
    ) -> Ahead
        requires run_ok { RunOk job.m job.stride self c0.old c1.old c2.old left }
        requires words_if { IfSome job.words (λ words. WordsOk job.m job.table.now words.now) }
        ensures { SameRun job.entry.m job.entry.table.now job.entry.proves stop self c0.old c1.old c2.old left result.sim c0.new c1.new c2.new result.left }
    {
        let m = job.m;
        // Two calls of `burst_one` on purpose (docs/DECISIONS.md 7.6).
        if job.words.is_some() {
            return self.burst_one(job, stop, c0, left);
        }
        if m.tapes == 1 {
            return self.burst_one(job, stop, c0, left);
        }
        let by = wide::Rules {
            table: job.table,
            stop,
            k: m.symbols,
            stride: job.stride,
        };
        let at = wide::burst_several(by, c0, c1, c2, self.wide(left));
        self.onward(at, left)
    }

    // The run over a table, or over its words where they are given.
    pub(crate) fn run_bursts(
        mut self,
        job: Job,
        c0: &mut [u8],
        c1: &mut [u8],
        c2: &mut [u8],
        fuel: u64,
    ) -> Ran
        requires run_ok { RunOk job.m job.stride self c0.old c1.old c2.old fuel }
        requires words_if { IfSome job.words (λ words. WordsOk job.m job.table.now words.now) }
        ensures { end (conf result.sim c0.new c1.new c2.new) result.outcome ≡ run_of (task job.entry.m job.entry.table.now job.entry.proves job.entry.rule) fuel (conf self c0.old c1.old c2.old) }
    {
        let rule = job.rule;
        let stop = stop_of(rule);
        let mut left = fuel;
        loop {
            let ahead = self.burst(job, stop, c0, c1, c2, left);
            let at = ahead.sim;
            let fuel_left = ahead.left;
            let choice = at.decide(
                job.m, job.stride, job.proves, job.table, c0, c1, c2, fuel_left,
            );
            match choice {
                ControlFlow::Break(outcome) => {
                    return Ran { sim: at, outcome };
                }
                ControlFlow::Continue(a) => {
                    let next = at.advance(c0, c1, c2, a);
                    if run_rules::inner::matches(rule, at.state) {
                        return stopped(next);
                    }
                    self = next;
                    left = fuel_left - 1;
                }
            }
        }
    }

    // The answer of an operation after its check: the refusal, with nothing changed, or the run.
    pub(crate) fn run_checked(
        self,
        checked: Result<(), Refusal>,
        m: Machine,
        proves: bool,
        rule: Option<State>,
        table: &[u8],
        words: Option<&[u64]>,
        c0: &mut [u8],
        c1: &mut [u8],
        c2: &mut [u8],
        fuel: u64,
    ) -> Answered
        requires cleared { Cleared checked m table.now fuel (conf self c0.old c1.old c2.old) }
        requires words_if { checked ≡ Ok tt → IfSome words (λ given. WordsOk m table.now given.now) }
        ensures { given (conf result.sim c0.new c1.new c2.new) result.answer ≡ answer_of checked m table.now proves rule fuel (conf self c0.old c1.old c2.old) }
    {
        match checked {
            Err(why) => {
                return Answered {
                    sim: self,
                    answer: Err(why),
                };
            }
            Ok(()) => {
                let job = Job {
                    m,
                    stride: machine::inner::stride(m.tapes, m.symbols),
                    proves,
                    rule,
                    table,
                    words,
                };
                let ran = self.bare(m.tapes).run_over(job, c0, c1, c2, fuel);
                let after = ran.sim;
                let outcome = ran.outcome;
                return Answered {
                    sim: after.hand_back(m.tapes, self),
                    answer: Ok(outcome),
                };
            }
        }
    }
}
