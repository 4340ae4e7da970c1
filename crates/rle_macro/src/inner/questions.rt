// The questions on a tape of two sides.
ghost use Rattle.std.specs.Prelude.{◌≡◌, ◌-◌, ◌<◌};
ghost use Rattle.notation.specs.Limits.{raised_zero};
ghost use Rattle.rle_stack.specs.Model.{cells_of};
ghost use Rattle.rle_macro.specs.Model.Questions.{cell_on, window_on, window_all, count_on};

use rle_stack::inner as stack;
use rle_stack::inner::Runs;

// A tape to read: the head's position raised by 2^63, the symbol under the head, and the two sides.
#[derive(Drop)]
pub struct Tape<'a> {
    pub head: u64,
    pub cur: u8,
    pub left: Runs<'a, &'a [u64]>,
    pub right: Runs<'a, &'a [u64]>,
}

impl<'a> Tape<'a> {
    // The symbol at a raised position.
    pub fn cell(&self, raised: u64) -> u8
        ensures { result ≡ cell_on self.now.head self.now.cur self.now.left self.now.right raised }
    {
        if raised == self.head {
            self.cur
        } else if raised < self.head {
            self.left.symbol_at(self.head - raised - 1)
        } else {
            self.right.symbol_at(raised - self.head - 1)
        }
    }

    // The symbol j places above a raised position; positions past i64 are blank.
    fn window_cell(&self, raised: u64, j: usize) -> u8
        ensures { result ≡ window_on self.now.head self.now.cur self.now.left self.now.right raised j }
    {
        let above = j as u64;
        if u64::MAX - raised < above {
            return 0;
        }
        self.cell(raised + above)
    }

    // Writes the symbols from a raised position on into the whole of `out`.
    pub fn fill_window(&self, raised: u64, out: &mut [u8])
        ensures { out.new ≡ window_all self.now.head self.now.cur self.now.left self.now.right raised out.old }
    {
        for j in 0..out.len() {
            out[j] = self.window_cell(raised, j);
        }
    }
}

// How many cells are not blank.
pub fn count(tape: &Tape) -> u64
    requires { (cells_of tape.now.left < raised_zero - 1) × (cells_of tape.now.right < raised_zero - 1) }
    ensures { result ≡ count_on tape.now.cur tape.now.left tape.now.right }
{
    let lefts = stack::written(&tape.left);
    let rights = stack::written(&tape.right);
    if tape.cur == 0 {
        return lefts + rights;
    }
    lefts + 1 + rights
}
