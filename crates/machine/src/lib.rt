// The machine's numbers, its table of eight-byte entries, the table check, and packed words.
#![tactic(auto, unfolding(notation::specs::Choice::both, notation::specs::Choice::pick))]

ghost use Rattle.std.specs.Prelude.{◌≡◌, length};
ghost use Rattle.machine.specs.Layout.{single_of};
ghost use Rattle.machine.specs.Model.Check.{table_check, lookup_of};
ghost use Rattle.machine.specs.Model.Packing.{pack_check, pack_into};

use outcome::Refusal;
use symbol::{Dir, State, Symbol};
use table_bytes::inner as bytes;

mod checks;
pub mod inner;
pub mod packed;
pub mod word;

// With t tapes, k symbols and n states the table has n × k^t entries of eight bytes.
#[derive(Clone, Copy)]
pub struct Machine {
    pub tapes: u64,
    pub symbols: u64,
    pub states: u64,
    pub start: u64,
}

// The action of a step: the next state and, for each tape, the symbol written and the move of the head.
// For a tape that the machine lacks, the symbol is blank and the move is N.
#[derive(Clone, Copy)]
pub struct Action {
    pub next: State,
    pub write0: Symbol,
    pub write1: Symbol,
    pub write2: Symbol,
    pub dir0: Dir,
    pub dir1: Dir,
    pub dir2: Dir,
}

impl Action {
    // The action of a machine with one tape.
    pub fn single(write: Symbol, dir: Dir, next: State) -> Action
        ensures { result ≡ single_of write dir next }
    {
        Action {
            next,
            write0: write,
            write1: Symbol::BLANK,
            write2: Symbol::BLANK,
            dir0: dir,
            dir1: Dir::N,
            dir2: Dir::N,
        }
    }
}

impl Machine {
    // Checks the machine's numbers and the table: refusals 1 to 6, in that order.
    pub fn check(self, table: &[u8]) -> Result<(), Refusal>
        ensures { result ≡ table_check self table.now }
    {
        if !bytes::within(1, 3, self.tapes) {
            return Err(Refusal::Tapes);
        }
        if !bytes::within(1, 256, self.symbols) {
            return Err(Refusal::Symbols);
        }
        if !bytes::within(1, 65536, self.states) {
            return Err(Refusal::States);
        }
        if self.states <= self.start {
            return Err(Refusal::Start);
        }
        let stride = inner::stride(self.tapes, self.symbols);
        checks::check_size(self, table, self.states * stride)
    }

    // The entry for a state and the symbols read, one for each tape; it is undefined past the table's end.
    pub fn lookup(
        self,
        table: &[u8],
        q: State,
        a0: Symbol,
        a1: Symbol,
        a2: Symbol,
    ) -> Result<Option<Action>, Refusal>
        ensures { result ≡ lookup_of self table.now q a0 a1 a2 }
    {
        self.check(table)?;
        let stride = inner::stride(self.tapes, self.symbols);
        let number = inner::entry_number(self.symbols, stride, q.0, a0.0, a1.0, a2.0);
        Ok(inner::entry_at(table, number as usize))
    }

    // Writes the packed words of a table of one tape into the first places of `out`. After the table check:
    // refusal 7 for several tapes, refusal 18 for too short an output.
    pub fn pack(self, table: &[u8], out: &mut [u64]) -> Result<(), Refusal>
        ensures { (result ≡ pack_check self table.now (length out.old)) × (out.new ≡ pack_into self table.now out.old) }
    {
        self.check(table)?;
        if self.tapes != 1 {
            return Err(Refusal::PackedWords);
        }
        let count = self.states * self.symbols;
        if (out.len() as u64) < count {
            return Err(Refusal::OutputSize);
        }
        inner::pack_entries(table, self.symbols, count, out);
        Ok(())
    }
}
