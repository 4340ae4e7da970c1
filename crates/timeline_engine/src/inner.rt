// The trait that an engine meets to have a timeline. Its methods require an engine that passed its check.
ghost use Rattle.std.specs.Prelude.{◌≡◌, ◌<◌, List, ℕ, length, IfOk};
ghost use Rattle.machine.specs.declared.Machine.{Machine};
ghost use Rattle.table_laws.specs.WellFormed.{Bytes};
ghost use Rattle.timeline_rule.specs.Model.Kind.{Kind};
ghost use Rattle.timeline_rule.specs.Invariants.{Sound, Fits};
ghost use Rattle.timeline_engine.specs.Engine.{sized, Saves, Advances, read_or};

use machine::Machine;
use outcome::{Outcome, Refusal};

// An engine with the buffers that are lent to it for a call.
pub trait Engine {
    // The models of its operations.
    ghost kind: { Kind };

    // The engine's value and the contents of its buffers.
    ghost state: { Self → kind.State };

    // The names of the lent buffers, which stay.
    ghost Names: { Type 0 };

    ghost names: { Self → Names };

    // The step count.
    fn steps(&self) -> u64
        ensures { result ≡ kind.now (state self.now) };

    // The table check, then refusals 8, 11 and 12. The answer is the size of a slot.
    fn admitted(&self, m: Machine, table: &[u8]) -> Result<usize, Refusal>
        ensures admitted { result ≡ sized (kind.slot_size m (state self.now)) (kind.check m table.now (state self.now)) }
        ensures not_empty { IfOk result (λ size. 0 < size) };

    // Writes the engine into a slot.
    fn save(&self, m: Machine, slot: &mut [u8])
        requires { Saves kind m (length slot.old) (state self.now) }
        ensures { slot.new ≡ kind.pack m (state self.now) slot.old };

    // Runs without the never test, then makes that test with fuel 0.
    fn advance(&mut self, m: Machine, table: &[u8], fuel: u64) -> Outcome
        requires { Advances kind m table.now fuel (state self.old) }
        ensures advanced { (result, state self.new) ≡ kind.advance m table.now fuel (state self.old) }
        ensures same_buffers { names self.new ≡ names self.old };

    // Reads a slot's engine into the buffers if it is of step `step` and fits; else changes nothing.
    fn restore(&mut self, m: Machine, slot: &[u8], step: u64) -> bool
        requires { length slot.now ≡ kind.slot_size m (state self.old) }
        ensures restored { (result, state self.new) ≡ read_or (state self.old) (kind.unpack m slot.now step (state self.old)) }
        ensures same_buffers { names self.new ≡ names self.old };

    // A table that is lent consists of bytes.
    ghost sound: { (m : Machine) (s : List ℕ) (size : ℕ) → Bytes s → Sound kind m s size (Fits kind m s size) };
}
