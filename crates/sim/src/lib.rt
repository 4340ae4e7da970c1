// The plain engine: one step at a time, on one to three dense tapes.
#![tactic(auto)]

ghost use Rattle.std.specs.Prelude.{◌≡◌};
ghost use Rattle.sim.specs.Model.Engine.{conf, status_of};
ghost use Rattle.sim.specs.Model.Operations.{given, run_answer, fast_answer, step_given, step_answer, step_answer_of, made, new_answer};

use machine::Machine;
use outcome::{Outcome, Refusal, Status};
use run_checks::inner::sizes;
use symbol::State;
use tape::Tape;

mod checks;
mod fast;
pub mod inner;
pub mod questions;
mod runs;
mod small;

// The engine's value. The caller lends its cells, one buffer for each tape. Fields and buffers of tapes that the
// machine lacks are neither read nor changed.
#[derive(Clone, Copy)]
pub struct Simulator {
    pub state: State,
    pub steps: u64,
    pub t0: Tape,
    pub t1: Tape,
    pub t2: Tape,
}

// The engine after the operation, and the answer.
#[derive(Clone, Copy)]
pub struct Answered {
    pub sim: Simulator,
    pub answer: Result<Outcome, Refusal>,
}

#[derive(Clone, Copy)]
pub struct Stepped {
    pub sim: Simulator,
    pub answer: Result<Status, Refusal>,
}

// The answer of a step, from the answer of a run of one step.
fn step_answer(answer: Result<Outcome, Refusal>) -> Result<Status, Refusal>
    ensures { result ≡ step_answer_of answer }
{
    answer.map(status_of)
}

// The status of a step, from the outcome of a run of one step.
fn status_of(outcome: Outcome) -> Status
    ensures { result ≡ status_of outcome }
{
    match outcome {
        Outcome::OutOfFuel { .. } | Outcome::Stopped { .. } => Status::Running,
        Outcome::Full { .. } => Status::Full,
        _ => Status::Halted,
    }
}

impl Simulator {
    // A fresh engine: the start state, the word on tape 0, heads at position 0, all else blank.
    pub fn new(
        m: Machine,
        table: &[u8],
        word: &[u8],
        c0: &mut [u8],
        c1: &mut [u8],
        c2: &mut [u8],
    ) -> Result<Simulator, Refusal>
        ensures { made result c0.new c1.new c2.new ≡ new_answer m table.now word.now c0.old c1.old c2.old }
    {
        sizes::fresh_check(m, table, word, c0.len(), c1.len(), c2.len())?;
        let t0 = tape::inner::fresh(c0, word);
        let t1 = sizes::blank(1 < m.tapes, c1);
        let t2 = sizes::blank(2 < m.tapes, c2);
        let start = m.start;
        Ok(Simulator {
            state: State(start as u16),
            steps: 0,
            t0,
            t1,
            t2,
        })
    }

    // Runs until the machine halts, is proved never to halt, has used its fuel, lacks space, or stops by the rule.
    pub fn run(
        self,
        m: Machine,
        table: &[u8],
        c0: &mut [u8],
        c1: &mut [u8],
        c2: &mut [u8],
        rule: Option<State>,
        fuel: u64,
    ) -> Answered
        ensures { given (conf result.sim c0.new c1.new c2.new) result.answer ≡ run_answer m table.now rule fuel (conf self c0.old c1.old c2.old) }
    {
        let checked = self.run_check(m, table, c0, c1, c2, fuel);
        self.run_checked(checked, m, true, rule, table, None, c0, c1, c2, fuel)
    }

    // The same over packed words, which must be those of the table. The machine must have one tape.
    pub fn run_packed(
        self,
        m: Machine,
        table: &[u8],
        words: &[u64],
        c0: &mut [u8],
        c1: &mut [u8],
        c2: &mut [u8],
        rule: Option<State>,
        fuel: u64,
    ) -> Answered
        ensures { given (conf result.sim c0.new c1.new c2.new) result.answer ≡ fast_answer m table.now words.now rule fuel (conf self c0.old c1.old c2.old) }
    {
        let checked = self.fast_check(m, table, words, c0, c1, c2, fuel);
        self.run_checked(checked, m, true, rule, table, Some(words), c0, c1, c2, fuel)
    }

    // Makes one step, even where it is a proved loop, or answers that the machine has halted or lacks space.
    pub fn step(
        self,
        m: Machine,
        table: &[u8],
        c0: &mut [u8],
        c1: &mut [u8],
        c2: &mut [u8],
    ) -> Stepped
        ensures { step_given (conf result.sim c0.new c1.new c2.new) result.answer ≡ step_answer m table.now (conf self c0.old c1.old c2.old) }
    {
        let checked = self.run_check(m, table, c0, c1, c2, 1);
        let rule = Some(self.state);
        let ran = self.run_checked(checked, m, false, rule, table, None, c0, c1, c2, 1);
        let sim = ran.sim;
        let answer = ran.answer;
        Stepped {
            sim,
            answer: step_answer(answer),
        }
    }
}
