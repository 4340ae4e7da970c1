// The plain engine, on the cells that are lent to it for a call, as a timeline's engine.
ghost use Rattle.std.specs.Prelude.{◌≡◌, ◌<◌, IfOk};
ghost use Rattle.std.specs.Borrow.{GName};
ghost use Rattle.sim.specs.Model.Engine.{conf};
ghost use Rattle.sim.specs.Model.Operations.{engine_check};
ghost use Rattle.sim_slots.specs.Model.Slots.{slot_size};
ghost use Rattle.sim_slots.specs.Model.Kind.{plain_kind};
ghost use Rattle.timeline_engine.specs.Engine.{sized};
ghost use Rattle.sim_slots.proofs.Facts.Sound.{plain_sound};

use machine::Machine;
use outcome::{Outcome, Refusal};
use sim::Simulator;
use sim_slots::inner as slots;
use timeline_engine::inner::Engine;

#[derive(Drop)]
pub(crate) struct PlainOn<'a, 'b, 'c> {
    pub sim: Simulator,
    pub c0: &'a mut [u8],
    pub c1: &'b mut [u8],
    pub c2: &'c mut [u8],
}

// The table check, then refusals 8, 11 and 12. The answer is the size of a slot.
pub(crate) fn admitted(
    sim: Simulator,
    m: Machine,
    table: &[u8],
    c0: &[u8],
    c1: &[u8],
    c2: &[u8],
) -> Result<usize, Refusal>
    ensures admitted { result ≡ sized (slot_size m (conf sim c0.now c1.now c2.now)) (engine_check m table.now (conf sim c0.now c1.now c2.now)) }
    ensures not_empty { IfOk result (λ size. 0 < size) }
{
    sim.engine_check(m, table, c0, c1, c2)?;
    Ok(slots::slot_size(m, c0.len(), c1.len(), c2.len()))
}

impl<'a, 'b, 'c> Engine for PlainOn<'a, 'b, 'c> {
    ghost kind = { plain_kind };

    ghost state = { λ on. conf on.sim on.c0.now on.c1.now on.c2.now };

    ghost Names = { GName × GName × GName };

    ghost names = { λ on. (on.c0.ghost_name, on.c1.ghost_name, on.c2.ghost_name) };

    ghost sound = { λ m s size bytes. plain_sound m s size };

    fn steps(&self) -> u64 {
        let sim = self.sim;
        sim.steps
    }

    fn admitted(&self, m: Machine, table: &[u8]) -> Result<usize, Refusal> {
        admitted(self.sim, m, table, self.c0, self.c1, self.c2)
    }

    fn save(&self, m: Machine, slot: &mut [u8]) {
        slots::save(self.sim, m, self.c0, self.c1, self.c2, slot);
    }

    fn advance(&mut self, m: Machine, table: &[u8], fuel: u64) -> Outcome {
        let told = slots::advance(self.sim, m, table, self.c0, self.c1, self.c2, fuel);
        self.sim = told.sim;
        told.outcome
    }

    fn restore(&mut self, m: Machine, slot: &[u8], step: u64) -> bool {
        match slots::restore(self.sim, m, slot, step, self.c0, self.c1, self.c2) {
            None => false,
            Some(sim) => {
                self.sim = sim;
                true
            }
        }
    }
}
