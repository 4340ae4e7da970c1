// What a case asks of an engine. An engine is a value with the buffers that it is lent.
use crate::read::question::Places;
use crate::read::timeline::Settings;
use crate::rows::STORE;
use machine::Machine;
use outcome::{Outcome, Refusal};
use symbol::State;
use timeline_rule::{Call, Times};

// The engine after a run, and the answer.
#[derive(Clone, Copy)]
pub(crate) struct Ran<E> {
    pub engine: E,
    pub answer: Result<Outcome, Refusal>,
}

// A timeline and its engine after a call, and the answer.
#[derive(Clone, Copy)]
pub(crate) struct Called<E, T> {
    pub engine: E,
    pub timeline: T,
    pub answer: Result<Outcome, Refusal>,
}

pub(crate) trait Engine: Copy {
    type Timeline: Copy;

    // How many numbers a question has.
    fn width() -> usize;

    fn run(self, m: Machine, table: &[u8], rule: Option<State>, fuel: u64) -> Ran<Self>;

    // Asks the question, and compares its answer. Returns the place past the answer.
    fn ask(self, row: &[u64], places: Places, m: Machine, table: &[u8]) -> usize;

    // Compares the engine with that of the row. Returns the place past it.
    fn expect(self, row: &[u64], at: usize, m: Machine) -> usize;

    // Makes a timeline that begins with the engine.
    fn begin(
        self,
        m: Machine,
        table: &[u8],
        settings: Settings,
        store: &mut [u8; STORE],
    ) -> Result<Self::Timeline, Refusal>;

    // Makes a call to the timeline, whose engine has the buffers of this one.
    fn call(
        self,
        timeline: Self::Timeline,
        m: Machine,
        table: &[u8],
        store: &mut [u8; STORE],
        call: Call,
    ) -> Called<Self, Self::Timeline>;

    fn times(timeline: Self::Timeline) -> Times;

    // What the data counts: the steps, or the macro steps.
    fn counted(timeline: Self::Timeline) -> u64;
}
