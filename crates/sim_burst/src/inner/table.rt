// The entries of a table's bytes.
ghost use Rattle.sim_burst.specs.Model.Burst.{Is};

use super::entries::Entries;
use super::step;
use super::step::Decoded;

impl Entries for &[u8] {
    ghost known = { λ table k. Is table.now };

    // An entry that is past the table, undefined, or moves a tape that the machine lacks is not known.
    fn entry(self, k: usize, i: usize) -> Option<Decoded> {
        let at = 8 * i;
        if self.len() < at + 8 || self[at] != 1 {
            return None;
        }
        let moves = self[at + 6];
        if moves < 24 || 26 < moves {
            return None;
        }
        let next = step::wide(self[at + 1]) + 256 * step::wide(self[at + 2]);
        Some(Decoded {
            write: self[at + 3],
            dir: moves - 24,
            next,
            row: step::row(next, k),
        })
    }
}
