// The operations on one tape. They require that its numbers lie inside its cells.
pub mod view;

ghost use Rattle.std.specs.Prelude.{◌≡◌, true, false, ◌+◌, ◌≤◌, length};
ghost use Rattle.notation.specs.Limits.{cells_most};
ghost use Rattle.tape.specs.Model.Moves.{held, fresh_of, leaves, room_for, grow_of, shift_of, act_of};
ghost use Rattle.tape.specs.Fits.{TapeOk, shape_fits, tape_fits};

use super::Tape;
use symbol::Dir;
use tape_cells::inner as loops;

// A tape that holds a word from position 0 on.
pub fn fresh(cells: &mut [u8], word: &[u8]) -> Tape
    requires { 32 + length word.now ≤ length cells.old }
    ensures { held result cells.new ≡ fresh_of word.now cells.old }
{
    loops::fresh(cells, word);
    Tape {
        len: 32 + word.len(),
        origin: 16,
        head: 16,
        lowest: 16,
        highest: 16,
    }
}

impl Tape {
    // Whether the move leaves the cells.
    fn leaves(self, d: Dir) -> bool
        requires { (self.head ≤ self.len) × (self.len ≤ cells_most) }
        ensures { result ≡ leaves self d }
    {
        match d {
            Dir::L => self.head == 0,
            Dir::R => self.head + 1 == self.len,
            Dir::N => false,
        }
    }

    // Adds blank cells on the side on which a move leaves the cells.
    fn grow(self, cells: &mut [u8], d: Dir) -> Tape
        requires { TapeOk self cells.old }
        ensures { held result cells.new ≡ grow_of (held self cells.old) d }
    {
        let len = self.len;
        let more = loops::extra(len, cells.len());
        match d {
            Dir::L => {
                loops::open_left(cells, more, len);
                Tape {
                    len: len + more,
                    origin: self.origin + more,
                    head: self.head + more,
                    lowest: self.lowest + more,
                    highest: self.highest + more,
                }
            }
            Dir::R => {
                loops::open_right(cells, more, len);
                Tape {
                    len: len + more,
                    origin: self.origin,
                    head: self.head,
                    lowest: self.lowest,
                    highest: self.highest,
                }
            }
            Dir::N => self,
        }
    }

    // The tape after a move of the head that stays inside the cells.
    fn shifted(self, d: Dir) -> Tape
        requires { (self.head ≤ 4294967296) × (leaves self d ≡ false) }
        ensures { result ≡ shift_of self d }
    {
        match d {
            Dir::L => {
                let head = self.head - 1;
                let lowest = self.lowest.min(head);
                Tape {
                    len: self.len,
                    origin: self.origin,
                    head,
                    lowest,
                    highest: self.highest,
                }
            }
            Dir::R => {
                let head = self.head + 1;
                let highest = self.highest.max(head);
                Tape {
                    len: self.len,
                    origin: self.origin,
                    head,
                    lowest: self.lowest,
                    highest,
                }
            }
            Dir::N => self,
        }
    }

    fn shape_fits(self, cap: usize) -> bool
        ensures { result ≡ shape_fits self cap }
    {
        if self.len < 32 {
            return false;
        }
        if cap < self.len {
            return false;
        }
        if self.len <= self.head {
            return false;
        }
        if self.len <= self.origin {
            return false;
        }
        if self.head < self.lowest {
            return false;
        }
        if self.highest < self.head {
            return false;
        }
        self.highest < self.len
    }

    // Whether the numbers lie inside the cells, and every cell holds a symbol below `k`.
    pub fn fits(self, k: u64, cells: &[u8]) -> bool
        ensures { result ≡ tape_fits k self cells.now }
    {
        if !self.shape_fits(cells.len()) {
            return false;
        }
        loops::all_below(&cells[..self.len], k)
    }
}

// Whether the move has room in a buffer of `cap` cells.
pub fn room(t: Tape, cap: usize, d: Dir) -> bool
    requires { (t.head ≤ t.len) × (t.len ≤ cells_most) }
    ensures { result ≡ room_for t cap d }
{
    if t.leaves(d) {
        return 1 <= loops::extra(t.len, cap);
    }
    true
}

// Writes at the head and moves it. The tape grows where the move leaves the cells; the caller must have tested `room`.
// It takes the tape and its cells apart, since docs/PROOFS.md names its contract.
pub fn act(t: Tape, cells: &mut [u8], w: u8, d: Dir) -> Tape
    requires tape_ok { TapeOk t cells.old }
    requires d_value { room_for t (length cells.old) d ≡ true }
    ensures { held result cells.new ≡ act_of (held t cells.old) w d }
{
    let head = t.head;
    if t.len <= head {
        return t;
    }
    cells[head] = w;
    if t.leaves(d) {
        let grown = t.grow(cells, d);
        return grown.shifted(d);
    }
    t.shifted(d)
}
