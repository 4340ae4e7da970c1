// The run-length engine with the runs of its sides.
use super::questions;
use crate::compare::engines;
use crate::lent::{Called, Engine, Ran};
use crate::read::question::Places;
use crate::read::timeline::Settings;
use crate::rows::STORE;
use machine::Machine;
use outcome::Refusal;
use rle::ChainSim;
use rle_timeline::Timeline;
use symbol::State;
use timeline_rule::{Call, Times};

// The number of run places of a side.
pub(crate) const RUNS: usize = 48;

// The engine, with the symbols and the lengths of the left and of the right side.
#[derive(Clone, Copy)]
pub(crate) struct ChainEngine {
    pub sim: ChainSim,
    pub ls: [u8; RUNS],
    pub ll: [u64; RUNS],
    pub rs: [u8; RUNS],
    pub rl: [u64; RUNS],
}

impl Engine for ChainEngine {
    type Timeline = Timeline;

    fn width() -> usize {
        questions::WIDTH
    }

    fn run(self, m: Machine, table: &[u8], rule: Option<State>, fuel: u64) -> Ran<Self> {
        let before = self.sim;
        let mut ls = self.ls;
        let mut ll = self.ll;
        let mut rs = self.rs;
        let mut rl = self.rl;
        let ran = before.run(m, table, &mut ls, &mut ll, &mut rs, &mut rl, rule, fuel);
        let sim = ran.sim;
        let answer = ran.answer;
        Ran {
            engine: ChainEngine {
                sim,
                ls,
                ll,
                rs,
                rl,
            },
            answer,
        }
    }

    fn ask(self, row: &[u64], places: Places, m: Machine, table: &[u8]) -> usize {
        questions::ask(
            row, places, m, table, self.sim, &self.ls, &self.ll, &self.rs, &self.rl,
        )
    }

    fn expect(self, row: &[u64], at: usize, _m: Machine) -> usize {
        engines::expect_chain(row, at, self)
    }

    fn begin(
        self,
        m: Machine,
        table: &[u8],
        settings: Settings,
        store: &mut [u8; STORE],
    ) -> Result<Timeline, Refusal> {
        let ls = self.ls;
        let ll = self.ll;
        let rs = self.rs;
        let rl = self.rl;
        Timeline::new(
            self.sim,
            m,
            table,
            &ls,
            &ll,
            &rs,
            &rl,
            store,
            settings.most,
            settings.every,
        )
    }

    fn call(
        self,
        timeline: Timeline,
        m: Machine,
        table: &[u8],
        store: &mut [u8; STORE],
        call: Call,
    ) -> Called<Self, Timeline> {
        let mut ls = self.ls;
        let mut ll = self.ll;
        let mut rs = self.rs;
        let mut rl = self.rl;
        let (which, number) = call.numbers();
        let answered = timeline.call(
            m, table, &mut ls, &mut ll, &mut rs, &mut rl, store, which, number,
        );
        let timeline = answered.timeline;
        let answer = answered.answer;
        let sim = timeline.engine;
        Called {
            engine: ChainEngine {
                sim,
                ls,
                ll,
                rs,
                rl,
            },
            timeline,
            answer,
        }
    }

    fn times(timeline: Timeline) -> Times {
        timeline.times
    }

    fn counted(timeline: Timeline) -> u64 {
        let sim = timeline.engine;
        sim.macro_steps()
    }
}
