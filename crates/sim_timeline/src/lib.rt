// A timeline over the plain engine: seek, forward and back over slots in a lent store.
#![tactic(auto)]

ghost use Rattle.std.specs.Prelude.{◌≡◌};
ghost use Rattle.sim.specs.Model.Engine.{conf};
ghost use Rattle.timeline_rule.specs.declared.Call.TheVariants.{Seek, Forward, Back};
ghost use Rattle.timeline_rule.specs.Model.Timeline.{call_for};
ghost use Rattle.timeline_rule.specs.Model.Kind.{call_on, new_with};
ghost use Rattle.sim_slots.specs.Model.Kind.{plain_kind};
ghost use Rattle.sim_timeline.specs.Model.{with_lent, replied, begun};

use engine::PlainOn;
use machine::Machine;
use outcome::{Outcome, Refusal};
use sim::Simulator;
use sim_slots::inner as slots;
use timeline_rule::{Times, inner as sums};

mod engine;

// The engine's value and the timeline's own numbers. The table, the engine's buffers and the store of slots are lent to
// each call.
#[derive(Clone, Copy)]
pub struct Timeline {
    pub engine: Simulator,
    pub times: Times,
}

// The timeline handed back, with the answer.
#[derive(Clone, Copy)]
pub struct Answered {
    pub timeline: Timeline,
    pub answer: Result<Outcome, Refusal>,
}

impl Timeline {
    // Saves the engine in slot 0: at most `most` slots are kept, `every` steps apart at first. The trait does not serve
    // here, since its engine holds `&mut` slices and `new` is lent shared ones.
    pub fn new(
        engine: Simulator,
        m: Machine,
        table: &[u8],
        c0: &[u8],
        c1: &[u8],
        c2: &[u8],
        store: &mut [u8],
        most: u64,
        every: u64,
    ) -> Result<Timeline, Refusal>
        ensures { begun result c0.now c1.now c2.now store.new ≡ new_with plain_kind m table.now most every (conf engine c0.now c1.now c2.now) store.old }
    {
        let size = engine::admitted(engine, m, table, c0, c1, c2)?;
        sums::first_check(most, every, store.len() / size)?;
        slots::save(engine, m, c0, c1, c2, &mut store[..size]);
        let times = Times {
            most,
            first: engine.steps,
            count: 1,
            every,
        };
        Ok(Timeline { engine, times })
    }

    // Moves to the step `target`, or to an earlier one where the machine halts or is full. A target below the start
    // counts as the start.
    pub fn seek(
        self,
        m: Machine,
        table: &[u8],
        c0: &mut [u8],
        c1: &mut [u8],
        c2: &mut [u8],
        store: &mut [u8],
        target: u64,
    ) -> Answered
        ensures { replied result.answer (with_lent result.timeline c0.new c1.new c2.new store.new) ≡ call_on plain_kind m table.now (with_lent self c0.old c1.old c2.old store.old) (Seek target) }
    {
        let sim = self.engine;
        let mut on = PlainOn { sim, c0, c1, c2 };
        let mut times = self.times;
        let answer = timeline_engine::seek(&mut on, &mut times, m, table, store, target);
        Answered {
            timeline: Timeline {
                engine: on.sim,
                times,
            },
            answer,
        }
    }

    // Moves n steps forward.
    pub fn forward(
        self,
        m: Machine,
        table: &[u8],
        c0: &mut [u8],
        c1: &mut [u8],
        c2: &mut [u8],
        store: &mut [u8],
        n: u64,
    ) -> Answered
        ensures { replied result.answer (with_lent result.timeline c0.new c1.new c2.new store.new) ≡ call_on plain_kind m table.now (with_lent self c0.old c1.old c2.old store.old) (Forward n) }
    {
        let sim = self.engine;
        let target = sums::forward_to(sim.steps, n);
        self.seek(m, table, c0, c1, c2, store, target)
    }

    // Moves n steps back, at most to the start.
    pub fn back(
        self,
        m: Machine,
        table: &[u8],
        c0: &mut [u8],
        c1: &mut [u8],
        c2: &mut [u8],
        store: &mut [u8],
        n: u64,
    ) -> Answered
        ensures { replied result.answer (with_lent result.timeline c0.new c1.new c2.new store.new) ≡ call_on plain_kind m table.now (with_lent self c0.old c1.old c2.old store.old) (Back n) }
    {
        let sim = self.engine;
        let target = sums::back_to(sim.steps, n);
        self.seek(m, table, c0, c1, c2, store, target)
    }

    // The call given by two numbers: `which` is 0 for seek, 1 for forward, else back.
    // The C interface gives the call as two numbers.
    pub fn call(
        self,
        m: Machine,
        table: &[u8],
        c0: &mut [u8],
        c1: &mut [u8],
        c2: &mut [u8],
        store: &mut [u8],
        which: u64,
        number: u64,
    ) -> Answered
        ensures { replied result.answer (with_lent result.timeline c0.new c1.new c2.new store.new) ≡ call_on plain_kind m table.now (with_lent self c0.old c1.old c2.old store.old) (call_for which number) }
    {
        let sim = self.engine;
        let target = sums::target_of(which, sim.steps, number);
        self.seek(m, table, c0, c1, c2, store, target)
    }
}
