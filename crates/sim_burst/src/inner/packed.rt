// The entries of packed words.
ghost use Rattle.std.specs.Prelude.{◌≡◌};
ghost use Rattle.sim_burst.specs.Model.Words.{unpacked, Packs};

use super::entries::Entries;
use super::step::Decoded;

impl Entries for &[u64] {
    ghost known = { λ words k. Packs words.now k };

    #[tactic(auto, unfolding(notation::specs::Choice::pick))]
    fn entry(self, _k: usize, i: usize) -> Option<Decoded> {
        if self.len() <= i {
            return None;
        }
        unpack(self[i])
    }
}

// Decodes a word, which has the number of the next state's first word. Only the word 3 is undefined.
#[tactic(auto, unfolding(notation::specs::Choice::pick))]
fn unpack(word: u64) -> Option<Decoded>
    ensures { result ≡ unpacked word }
{
    if word == 3 {
        return None;
    }
    Some(Decoded {
        write: (word / 256 % 256) as u8,
        dir: (word % 256) as u8,
        next: (word / 65536 % 65536) as usize,
        row: (word / 4294967296) as usize,
    })
}
