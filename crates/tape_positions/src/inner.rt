// Questions about positions.
ghost use Rattle.std.specs.Prelude.{◌≡◌, ◌+◌, ◌≤◌, ◌^◌};
ghost use Rattle.tape_cells.specs.Model.{reach};
ghost use Rattle.tape_positions.specs.Model.{Shown, cell_at, raised_at, window_from, window_at, cells_below, last_up_to, first_from};

use notation::limits;
use symbol::position;
use tape_cells::inner as loops;

// The first `len` of the cells are a tape's. Index `origin` is position 0.
// `len` stands beside the whole buffer, since the definitions of specs/ (`cell_at` and those after it) take both.
#[derive(Clone, Copy)]
pub struct Placed<'a> {
    pub cells: &'a [u8],
    pub origin: usize,
    pub len: usize,
    ghost inside: { Shown origin len cells.now },
}

impl<'a> Placed<'a> {
    // The symbol at a position; a cell outside is blank.
    pub fn cell(&self, at: i64) -> u8
        ensures { result ≡ cell_at self.now.origin self.now.len self.now.cells.now at }
    {
        let found = position::index_of(at, self.origin, self.len);
        loops::at(self.cells, found)
    }

    // The symbol `j` places above a raised position; past i64 it is blank.
    fn cell_above(&self, from: u64, j: usize) -> u8
        ensures { result ≡ raised_at self.now.origin self.now.len self.now.cells.now (from + j) }
    {
        if 18446744073709551615 - from < j as u64 {
            return 0;
        }
        let found = position::index_of_raised(from + j as u64, self.origin, self.len);
        loops::at(self.cells, found)
    }

    // Writes the symbols from a raised position on into the whole of `out`.
    fn fill(&self, from: u64, out: &mut [u8])
        ensures { out.new ≡ window_from self.now.origin self.now.len self.now.cells.now from out.old }
    {
        for (j, x) in out.iter_mut().enumerate() {
            *x = self.cell_above(from, j);
        }
    }

    // Writes the symbols from a position on into the whole of `out`; positions past i64 are blank.
    pub fn window(&self, from: i64, out: &mut [u8])
        ensures { out.new ≡ window_at self.now.origin self.now.len self.now.cells.now from out.old }
    {
        let raised = position::raised(from);
        self.fill(raised, out);
    }

    // The highest non-blank cell at a position or below it.
    pub fn last_up_to(&self, from: i64) -> Option<usize>
        ensures { (result ≡ last_up_to self.now.origin self.now.len self.now.cells.now from) × (reach result ≤ self.now.len) }
    {
        let raised = position::raised(from);
        let to = cells_below(raised, self.origin + 1, self.len);
        loops::last_written(&self.cells[..to])
    }

    // The lowest non-blank cell at a position or above it.
    pub fn first_from(&self, from: i64) -> Option<usize>
        ensures { (result ≡ first_from self.now.origin self.now.len self.now.cells.now from) × (reach result ≤ self.now.len) }
    {
        let raised = position::raised(from);
        let start = cells_below(raised, self.origin, self.len);
        let i = loops::first_written(&self.cells[start..self.len])?;
        Some(start + i)
    }
}

// How many of `len` cells lie below a raised position.
fn cells_below(raised: u64, origin: usize, len: usize) -> usize
    requires { (origin ≤ 4294967296) × (len ≤ 4294967296) }
    ensures { result ≡ cells_below raised (2 ^ 63) origin len }
{
    if raised < limits::RAISED_ZERO {
        let below = limits::RAISED_ZERO - raised;
        if origin as u64 <= below {
            return 0;
        }
        return (origin - below as usize).min(len);
    }
    let above = raised - limits::RAISED_ZERO;
    if len as u64 <= above {
        return len;
    }
    (origin + above as usize).min(len)
}
