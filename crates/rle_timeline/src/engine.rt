// The run-length engine, on the run places that are lent to it for a call, as a timeline's engine.
ghost use Rattle.std.specs.Prelude.{◌≡◌, ◌<◌, IfOk};
ghost use Rattle.std.specs.Borrow.{GName};
ghost use Rattle.rle.specs.Model.Engine.{conf};
ghost use Rattle.rle.specs.Fits.{engine_check};
ghost use Rattle.rle_slots.specs.Model.Slots.{slot_size};
ghost use Rattle.rle_slots.specs.Model.Kind.{chain_kind};
ghost use Rattle.timeline_engine.specs.Engine.{sized};
ghost use Rattle.rle_slots.proofs.Facts.Sound.{chain_sound};

use machine::Machine;
use outcome::{Outcome, Refusal};
use rle::ChainSim;
use rle_slots::inner as slots;
use timeline_engine::inner::Engine;

#[derive(Drop)]
pub(crate) struct ChainOn<'a, 'b, 'c, 'd> {
    pub sim: ChainSim,
    pub ls: &'a mut [u8],
    pub ll: &'b mut [u64],
    pub rs: &'c mut [u8],
    pub rl: &'d mut [u64],
}

// The table check, then refusals 8, 11 and 12. The answer is the size of a slot.
pub(crate) fn admitted(
    sim: ChainSim,
    m: Machine,
    table: &[u8],
    ls: &[u8],
    ll: &[u64],
    rs: &[u8],
    rl: &[u64],
) -> Result<usize, Refusal>
    ensures admitted { result ≡ sized (slot_size m (conf sim ls.now ll.now rs.now rl.now)) (engine_check m table.now (conf sim ls.now ll.now rs.now rl.now)) }
    ensures not_empty { IfOk result (λ size. 0 < size) }
{
    sim.engine_check(m, table, ls, ll, rs, rl)?;
    Ok(slots::slot_size(ls, ll, rs, rl))
}

impl<'a, 'b, 'c, 'd> Engine for ChainOn<'a, 'b, 'c, 'd> {
    ghost kind = { chain_kind };

    ghost state = { λ on. conf on.sim on.ls.now on.ll.now on.rs.now on.rl.now };

    ghost Names = { GName × GName × GName × GName };

    ghost names = { λ on. (on.ls.ghost_name, on.ll.ghost_name, on.rs.ghost_name, on.rl.ghost_name) };

    ghost sound = { λ m s size bytes. chain_sound m s size bytes };

    fn steps(&self) -> u64 {
        let sim = self.sim;
        sim.steps
    }

    fn admitted(&self, m: Machine, table: &[u8]) -> Result<usize, Refusal> {
        admitted(self.sim, m, table, self.ls, self.ll, self.rs, self.rl)
    }

    fn save(&self, m: Machine, slot: &mut [u8]) {
        slots::save(self.sim, self.ls, self.ll, self.rs, self.rl, slot);
    }

    fn advance(&mut self, m: Machine, table: &[u8], fuel: u64) -> Outcome {
        let told = slots::advance(self.sim, m, table, self.ls, self.ll, self.rs, self.rl, fuel);
        self.sim = told.sim;
        told.outcome
    }

    fn restore(&mut self, m: Machine, slot: &[u8], step: u64) -> bool {
        match slots::restore(m, slot, step, self.ls, self.ll, self.rs, self.rl) {
            None => false,
            Some(sim) => {
                self.sim = sim;
                true
            }
        }
    }
}
