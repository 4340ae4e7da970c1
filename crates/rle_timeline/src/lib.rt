// A timeline over the run-length engine: seek, forward and back over slots in a lent store.
#![tactic(auto)]

ghost use Rattle.std.specs.Prelude.{◌≡◌};
ghost use Rattle.rle.specs.Model.Engine.{conf};
ghost use Rattle.timeline_rule.specs.declared.Call.TheVariants.{Seek, Forward, Back};
ghost use Rattle.timeline_rule.specs.Model.Timeline.{call_for};
ghost use Rattle.timeline_rule.specs.Model.Kind.{call_on, new_with};
ghost use Rattle.rle_slots.specs.Model.Kind.{chain_kind};
ghost use Rattle.rle_timeline.specs.Model.{with_lent, replied, begun};

use engine::ChainOn;
use machine::Machine;
use outcome::{Outcome, Refusal};
use rle::ChainSim;
use rle_slots::inner as slots;
use timeline_rule::{Times, inner as sums};

mod engine;

// The engine's value and the timeline's own numbers. The table, the engine's buffers and the store of slots are lent to
// each call.
#[derive(Clone, Copy)]
pub struct Timeline {
    pub engine: ChainSim,
    pub times: Times,
}

// The timeline handed back, with the answer.
#[derive(Clone, Copy)]
pub struct Answered {
    pub timeline: Timeline,
    pub answer: Result<Outcome, Refusal>,
}

impl Timeline {
    // Saves the engine in slot 0: at most `most` slots are kept, `every` steps apart at first. The trait does not serve
    // here, since its engine holds `&mut` slices and `new` is lent shared ones.
    pub fn new(
        engine: ChainSim,
        m: Machine,
        table: &[u8],
        ls: &[u8],
        ll: &[u64],
        rs: &[u8],
        rl: &[u64],
        store: &mut [u8],
        most: u64,
        every: u64,
    ) -> Result<Timeline, Refusal>
        ensures { begun result ls.now ll.now rs.now rl.now store.new ≡ new_with chain_kind m table.now most every (conf engine ls.now ll.now rs.now rl.now) store.old }
    {
        let size = engine::admitted(engine, m, table, ls, ll, rs, rl)?;
        sums::first_check(most, every, store.len() / size)?;
        slots::save(engine, ls, ll, rs, rl, &mut store[..size]);
        let times = Times {
            most,
            first: engine.steps,
            count: 1,
            every,
        };
        Ok(Timeline { engine, times })
    }

    // Moves to the step `target`, or to an earlier one where the machine halts or is full. A target below the start
    // counts as the start.
    pub fn seek(
        self,
        m: Machine,
        table: &[u8],
        ls: &mut [u8],
        ll: &mut [u64],
        rs: &mut [u8],
        rl: &mut [u64],
        store: &mut [u8],
        target: u64,
    ) -> Answered
        ensures { replied result.answer (with_lent result.timeline ls.new ll.new rs.new rl.new store.new) ≡ call_on chain_kind m table.now (with_lent self ls.old ll.old rs.old rl.old store.old) (Seek target) }
    {
        let sim = self.engine;
        let mut on = ChainOn {
            sim,
            ls,
            ll,
            rs,
            rl,
        };
        let mut times = self.times;
        let answer = timeline_engine::seek(&mut on, &mut times, m, table, store, target);
        Answered {
            timeline: Timeline {
                engine: on.sim,
                times,
            },
            answer,
        }
    }

    // Moves n steps forward.
    pub fn forward(
        self,
        m: Machine,
        table: &[u8],
        ls: &mut [u8],
        ll: &mut [u64],
        rs: &mut [u8],
        rl: &mut [u64],
        store: &mut [u8],
        n: u64,
    ) -> Answered
        ensures { replied result.answer (with_lent result.timeline ls.new ll.new rs.new rl.new store.new) ≡ call_on chain_kind m table.now (with_lent self ls.old ll.old rs.old rl.old store.old) (Forward n) }
    {
        let sim = self.engine;
        let target = sums::forward_to(sim.steps, n);
        self.seek(m, table, ls, ll, rs, rl, store, target)
    }

    // Moves n steps back, at most to the start.
    pub fn back(
        self,
        m: Machine,
        table: &[u8],
        ls: &mut [u8],
        ll: &mut [u64],
        rs: &mut [u8],
        rl: &mut [u64],
        store: &mut [u8],
        n: u64,
    ) -> Answered
        ensures { replied result.answer (with_lent result.timeline ls.new ll.new rs.new rl.new store.new) ≡ call_on chain_kind m table.now (with_lent self ls.old ll.old rs.old rl.old store.old) (Back n) }
    {
        let sim = self.engine;
        let target = sums::back_to(sim.steps, n);
        self.seek(m, table, ls, ll, rs, rl, store, target)
    }

    // The call given by two numbers: `which` is 0 for seek, 1 for forward, else back.
    // The C interface gives the call as two numbers.
    pub fn call(
        self,
        m: Machine,
        table: &[u8],
        ls: &mut [u8],
        ll: &mut [u64],
        rs: &mut [u8],
        rl: &mut [u64],
        store: &mut [u8],
        which: u64,
        number: u64,
    ) -> Answered
        ensures { replied result.answer (with_lent result.timeline ls.new ll.new rs.new rl.new store.new) ≡ call_on chain_kind m table.now (with_lent self ls.old ll.old rs.old rl.old store.old) (call_for which number) }
    {
        let sim = self.engine;
        let target = sums::target_of(which, sim.steps, number);
        self.seek(m, table, ls, ll, rs, rl, store, target)
    }
}
