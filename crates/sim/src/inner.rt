// The tests before a step of a run, the step, and the run. They require that the engine's numbers lie inside its cells.
ghost use Rattle.std.specs.Prelude.{◌≡◌, ◌+◌, Ok};
ghost use Rattle.sim.specs.Model.Engine.{conf, step_of};
ghost use Rattle.sim.specs.Model.Operations.{given, answer_of, run_check};
ghost use Rattle.sim.specs.Model.Turns.{choice_of, LookOk, StepOk};

use super::{Answered, Simulator};
use machine::{Action, Machine};
use outcome::Outcome;
use run_checks::inner::look;
use std::ops::ControlFlow;
use symbol::State;

impl Simulator {
    // The tests before each step of a run: halted, never, fuel, space, in that order.
    pub(crate) fn decide(
        self,
        m: Machine,
        stride: u64,
        proves: bool,
        table: &[u8],
        c0: &[u8],
        c1: &[u8],
        c2: &[u8],
        left: u64,
    ) -> ControlFlow<Outcome, Action>
        requires { LookOk m stride self c0.now c1.now c2.now }
        ensures { result ≡ choice_of m table.now proves left (conf self c0.now c1.now c2.now) }
    {
        let t0 = self.t0;
        let t1 = self.t1;
        let t2 = self.t2;
        let q = self.state;
        look::decide(
            m, stride, proves, table, q, self.steps, t0, t1, t2, c0, c1, c2, left,
        )
    }

    // Makes the step. The caller must have tested that there is room.
    pub(crate) fn advance(self, c0: &mut [u8], c1: &mut [u8], c2: &mut [u8], a: Action) -> Simulator
        requires { StepOk self c0.old c1.old c2.old a }
        ensures { conf result c0.new c1.new c2.new ≡ step_of (conf self c0.old c1.old c2.old) a }
    {
        let t0 = self.t0;
        let t1 = self.t1;
        let t2 = self.t2;
        let d0 = a.dir0;
        let d1 = a.dir1;
        let d2 = a.dir2;
        let next = a.next;
        let u0 = tape::inner::act(t0, c0, a.write0.0, d0);
        let u1 = tape::inner::act(t1, c1, a.write1.0, d1);
        let u2 = tape::inner::act(t2, c2, a.write2.0, d2);
        Simulator {
            state: next,
            steps: self.steps + 1,
            t0: u0,
            t1: u1,
            t2: u2,
        }
    }
}

// The run, after its check has passed. Without the never test it uses all the fuel, or ends halted, full, or by the
// stop rule.
pub fn run_all(
    sim: Simulator,
    m: Machine,
    proves: bool,
    rule: Option<State>,
    table: &[u8],
    c0: &mut [u8],
    c1: &mut [u8],
    c2: &mut [u8],
    fuel: u64,
) -> Answered
    requires { run_check m table.now fuel (conf sim c0.old c1.old c2.old) ≡ Ok tt }
    ensures { given (conf result.sim c0.new c1.new c2.new) result.answer ≡ answer_of (Ok tt) m table.now proves rule fuel (conf sim c0.old c1.old c2.old) }
{
    sim.run_checked(Ok(()), m, proves, rule, table, None, c0, c1, c2, fuel)
}
