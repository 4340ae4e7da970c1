// The run-length engine: a machine of one tape, whose tape is two stacks of runs around the cell under the head.
#![tactic(auto)]

ghost use Rattle.std.specs.Prelude.{◌≡◌};
ghost use Rattle.rle.specs.Model.Engine.{conf};
ghost use Rattle.rle.specs.Model.Operations.{given, run_answer, made, new_answer};

use machine::Machine;
use notation::limits;
use outcome::{Outcome, Refusal};
use rle_macro::inner::word;
use rle_stack::inner as stack;
use symbol::State;

mod checks;
pub mod inner;
mod questions;
mod sides;

// The tape. The runs of each side lie in lent places; `left` and `right` are the numbers of live runs. The head's
// position is raised by 2^63.
#[derive(Clone, Copy)]
pub struct RunTape {
    pub left: usize,
    pub cur: u8,
    pub right: usize,
    pub head: u64,
}

// The engine's value: state, steps, macro steps, tape, and the lowest and the highest head so far, also raised by 2^63.
// The places are lent to each call: symbols `ls` and lengths `ll` of the left side, `rs` and `rl` of the right. The public
// methods keep these parameters.
#[derive(Clone, Copy)]
pub struct ChainSim {
    pub state: State,
    pub steps: u64,
    pub macros: u64,
    pub tape: RunTape,
    pub lowest: u64,
    pub highest: u64,
}

// The engine handed back, with the answer.
#[derive(Clone, Copy)]
pub struct Answered {
    pub sim: ChainSim,
    pub answer: Result<Outcome, Refusal>,
}

impl ChainSim {
    // Makes an engine in the start state, with the word from position 0 on, the head at 0 and all other cells blank.
    // The left side's places are not written.
    pub fn new(
        m: Machine,
        table: &[u8],
        word: &[u8],
        ls: &[u8],
        ll: &[u64],
        rs: &mut [u8],
        rl: &mut [u64],
    ) -> Result<ChainSim, Refusal>
        ensures { made result rs.new rl.new ≡ new_answer m table.now word.now ls.now ll.now rs.old rl.old }
    {
        word::fresh_check(m, table, word, stack::places(ls, ll), stack::places(rs, rl))?;
        let right = word::lay(rs, rl, word);
        let cur = word::first(word);
        let start = m.start;
        Ok(ChainSim {
            state: State(start as u16),
            steps: 0,
            macros: 0,
            tape: RunTape {
                left: 0,
                cur,
                right,
                head: limits::RAISED_ZERO,
            },
            lowest: limits::RAISED_ZERO,
            highest: limits::RAISED_ZERO,
        })
    }

    // Runs until the machine halts, is shown never to halt, has used its fuel, stops by the rule, or lacks space.
    pub fn run(
        self,
        m: Machine,
        table: &[u8],
        ls: &mut [u8],
        ll: &mut [u64],
        rs: &mut [u8],
        rl: &mut [u64],
        rule: Option<State>,
        fuel: u64,
    ) -> Answered
        ensures { given (conf result.sim ls.new ll.new rs.new rl.new) result.answer ≡ run_answer m table.now rule fuel (conf self ls.old ll.old rs.old rl.old) }
    {
        let checked = self.run_check(m, table, ls, ll, rs, rl, fuel);
        match checked {
            Err(why) => {
                return Answered {
                    sim: self,
                    answer: Err(why),
                };
            }
            Ok(()) => {
                let stride = machine::inner::stride(m.tapes, m.symbols);
                let t = inner::Table {
                    m,
                    stride,
                    entries: table,
                };
                let ran = inner::run_all(self, t, true, rule, ls, ll, rs, rl, fuel);
                let sim = ran.sim;
                let outcome = ran.outcome;
                return Answered {
                    sim,
                    answer: Ok(outcome),
                };
            }
        }
    }

    // How many macro steps were made.
    pub fn macro_steps(self) -> u64
        ensures { result ≡ self.macros }
    {
        self.macros
    }
}
