// The plain engine with the cells of its tapes.
use super::questions;
use crate::compare::engines;
use crate::lent::{Called, Engine, Ran};
use crate::read::question::Places;
use crate::read::timeline::Settings;
use crate::rows::STORE;
use machine::Machine;
use outcome::Refusal;
use sim::Simulator;
use sim_timeline::Timeline;
use symbol::State;
use timeline_rule::{Call, Times};

// The number of cells of tape 0, and of each other tape.
pub(crate) const MANY_CELLS: usize = 512;

pub(crate) const FEW_CELLS: usize = 128;

#[derive(Clone, Copy)]
pub(crate) struct PlainEngine {
    pub sim: Simulator,
    pub c0: [u8; MANY_CELLS],
    pub c1: [u8; FEW_CELLS],
    pub c2: [u8; FEW_CELLS],
}

impl PlainEngine {
    // Runs over packed words.
    pub(crate) fn run_packed(
        self,
        m: Machine,
        table: &[u8],
        packed: &[u64],
        rule: Option<State>,
        fuel: u64,
    ) -> Ran<Self> {
        let before = self.sim;
        let mut c0 = self.c0;
        let mut c1 = self.c1;
        let mut c2 = self.c2;
        let ran = before.run_packed(m, table, packed, &mut c0, &mut c1, &mut c2, rule, fuel);
        let sim = ran.sim;
        let answer = ran.answer;
        Ran {
            engine: PlainEngine { sim, c0, c1, c2 },
            answer,
        }
    }
}

impl Engine for PlainEngine {
    type Timeline = Timeline;

    fn width() -> usize {
        questions::WIDTH
    }

    fn run(self, m: Machine, table: &[u8], rule: Option<State>, fuel: u64) -> Ran<Self> {
        let before = self.sim;
        let mut c0 = self.c0;
        let mut c1 = self.c1;
        let mut c2 = self.c2;
        let ran = before.run(m, table, &mut c0, &mut c1, &mut c2, rule, fuel);
        let sim = ran.sim;
        let answer = ran.answer;
        Ran {
            engine: PlainEngine { sim, c0, c1, c2 },
            answer,
        }
    }

    fn ask(self, row: &[u64], places: Places, m: Machine, table: &[u8]) -> usize {
        questions::ask(
            row, places, m, table, self.sim, &self.c0, &self.c1, &self.c2,
        )
    }

    fn expect(self, row: &[u64], at: usize, m: Machine) -> usize {
        engines::expect_plain(row, at, self, m.tapes)
    }

    fn begin(
        self,
        m: Machine,
        table: &[u8],
        settings: Settings,
        store: &mut [u8; STORE],
    ) -> Result<Timeline, Refusal> {
        let c0 = self.c0;
        let c1 = self.c1;
        let c2 = self.c2;
        Timeline::new(
            self.sim,
            m,
            table,
            &c0,
            &c1,
            &c2,
            store,
            settings.most,
            settings.every,
        )
    }

    fn call(
        self,
        timeline: Timeline,
        m: Machine,
        table: &[u8],
        store: &mut [u8; STORE],
        call: Call,
    ) -> Called<Self, Timeline> {
        let mut c0 = self.c0;
        let mut c1 = self.c1;
        let mut c2 = self.c2;
        let (which, number) = call.numbers();
        let answered = timeline.call(m, table, &mut c0, &mut c1, &mut c2, store, which, number);
        let timeline = answered.timeline;
        let answer = answered.answer;
        let sim = timeline.engine;
        Called {
            engine: PlainEngine { sim, c0, c1, c2 },
            timeline,
            answer,
        }
    }

    fn times(timeline: Timeline) -> Times {
        timeline.times
    }

    fn counted(timeline: Timeline) -> u64 {
        let sim = timeline.engine;
        sim.steps
    }
}
