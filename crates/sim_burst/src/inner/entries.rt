// What a burst on one tape takes its entries from. The impls are for the bytes of a table and for its packed words.
ghost use Rattle.std.specs.Prelude.{ℕ, List, IfSome, ◌≤◌};
ghost use Rattle.sim_burst.specs.Model.Burst.{EntryOf};

use super::step::Decoded;

pub trait Entries: Copy {
    // The tables whose entries these are, where a state has k entries.
    ghost known: { Self → (k : ℕ) → List ℕ → Type 0 };

    // The entry with number `i`. It is None where the entry is not known to be defined, or moves another tape.
    fn entry(self, k: usize, i: usize) -> Option<Decoded>
        requires { (k ≤ 256) × (i ≤ 4294967550) }
        ensures { IfSome result (EntryOf (known self k) k i) };
}
