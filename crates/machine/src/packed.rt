// Entries of a table of one tape, each packed into one word that a run reads by a single load.
ghost use Rattle.std.specs.Prelude.{◌≡◌, not, eqb};
ghost use Rattle.machine.specs.Model.Packing.{undefined_word, pack_word, action_word, word_dir, word_write, word_next, word_row, word_action, word_entry};

use super::{Action, inner};
use symbol::{Dir, State, Symbol};
use table_bytes::inner as bytes;

// Byte 0 is the move, byte 1 the symbol written, bytes 2 and 3 the next state and bytes 4 to 7 the number
// of that state's first entry, its row.
#[derive(Clone, Copy, PartialEq, Eq)]
pub struct Packed(pub u64);

impl Packed {
    pub const UNDEFINED: Packed = Packed(3);

    // The word of an entry of a table with `stride` entries for each state.
    pub fn new(entry: Option<Action>, stride: u64) -> Packed
        ensures { result.0 ≡ pack_word entry stride }
    {
        match entry {
            None => {
                return Packed::UNDEFINED;
            }
            Some(action) => {
                return pack_action(action, stride);
            }
        }
    }

    pub fn is_defined(self) -> bool
        ensures { result ≡ not (eqb self.0 undefined_word) }
    {
        self != Packed::UNDEFINED
    }

    pub fn dir(self) -> Dir
        ensures { result ≡ word_dir self.0 }
    {
        inner::dir_of((self.0 % 256) as u8)
    }

    pub fn write(self) -> Symbol
        ensures { result.0 ≡ word_write self.0 }
    {
        Symbol((self.0 / 256 % 256) as u8)
    }

    pub fn next(self) -> State
        ensures { result.0 ≡ word_next self.0 }
    {
        State((self.0 / 65536 % 65536) as u16)
    }

    pub fn row(self) -> usize
        ensures { result ≡ word_row self.0 }
    {
        (self.0 / 4294967296) as usize
    }

    // The action in the word, whether the word is defined or not.
    #[tactic(auto, unfolding(crate::specs::Model::Packing::word_action))]
    pub fn action(self) -> Action
        ensures { result ≡ word_action self.0 }
    {
        let write = self.write();
        let dir = self.dir();
        let next = self.next();
        Action::single(write, dir, next)
    }

    // The entry of the word. Only the word UNDEFINED gives an undefined entry.
    #[tactic(auto, unfolding(crate::specs::Model::Packing::word_entry, notation::specs::Choice::pick))]
    pub fn entry(self) -> Option<Action>
        ensures { result ≡ word_entry self.0 }
    {
        if self.is_defined() {
            return Some(self.action());
        }
        None
    }
}

// The word of an action, or UNDEFINED where its row does not fit in 32 bits.
#[tactic(auto, unfolding(crate::specs::Model::Packing::action_word))]
fn pack_action(action: Action, stride: u64) -> Packed
    ensures { result.0 ≡ action_word action stride }
{
    let dir = action.dir0;
    let number = dir.number();
    let undefined = Packed::UNDEFINED;
    let word = bytes::word_of(number, action.write0.0, action.next.0, stride, undefined.0);
    Packed(word)
}
