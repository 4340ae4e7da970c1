// A tape with its lent cells, for the questions that read them.
ghost use Rattle.std.specs.Prelude.{◌≡◌, ◌≤◌};
ghost use Rattle.notation.specs.Limits.{cells_most};
ghost use Rattle.tape.specs.Model.Moves.{read_of};
ghost use Rattle.tape.specs.Fits.{reach};
ghost use Rattle.tape.specs.Model.Questions.{blank_beyond, cell_of, span_of, spot_of, non_blank_of, count_of, window_of, find_of};

use super::super::{Span, Tape};
use std::marker::Model;
use symbol::{Dir, position};
use tape_cells::inner as loops;
use tape_positions::inner::Placed;

#[derive(Drop)]
pub struct View<'a> {
    pub tape: Tape,
    pub cells: &'a [u8],
}

impl<'a> Model for View<'a> {
    ghost use Rattle.tape.specs.Model.Moves.{Held, held};
    ghost use Rattle.tape.specs.Fits.{TapeOk};

    ghost Value = { Held };

    ghost view = { λ v. held v.tape v.cells.now };

    ghost invariant = { λ v. TapeOk v.tape v.cells.now };
}

impl<'a> View<'a> {
    // The symbol under the head. A tape that the machine lacks reads blank.
    pub fn read(&self) -> u8
        ensures { result ≡ read_of self.now }
    {
        let head = self.tape.head;
        if head < self.tape.len {
            return self.cells[head];
        }
        0
    }

    // Whether every cell strictly beyond the head in direction `d` is blank.
    pub fn only_blanks_beyond(&self, d: Dir) -> bool
        ensures { result ≡ blank_beyond self.now d }
    {
        match d {
            Dir::L => loops::all_blank(&self.cells[..self.tape.head]),
            Dir::R => {
                let beyond = (self.tape.head + 1).min(self.tape.len);
                loops::all_blank(&self.cells[beyond..self.tape.len])
            }
            Dir::N => false,
        }
    }

    // The cells by position.
    fn placed(&self) -> Placed<'a>
        ensures { (result.origin ≡ self.now.tape.origin) × (result.len ≡ self.now.tape.len) × (result.cells.now ≡ self.now.cells) }
    {
        Placed {
            cells: self.cells,
            origin: self.tape.origin,
            len: self.tape.len,
        }
    }

    // The symbol at a position; a cell outside the tape is blank.
    pub fn get(&self, at: i64) -> u8
        ensures { result ≡ cell_of self.now at }
    {
        self.placed().cell(at)
    }

    // The positions of the lowest and the highest non-blank cell.
    pub fn non_blank(&self) -> Option<Span>
        ensures { result ≡ non_blank_of self.now }
    {
        let cells = &self.cells[..self.tape.len];
        let first = loops::first_written(cells);
        let last = loops::last_written(cells);
        span(first, last, self.tape.origin)
    }

    // How many cells are not blank.
    pub fn count_non_blank(&self) -> u64
        ensures { result ≡ count_of self.now }
    {
        loops::count_written(&self.cells[..self.tape.len])
    }
    // Fills `out` with the symbols from a position on; positions past i64 are blank.
    pub fn window(&self, from: i64, out: &mut [u8])
        ensures { out.new ≡ window_of self.now from out.old }
    {
        self.placed().window(from, out);
    }

    // The nearest non-blank cell at a position or beyond it in direction `dir`; N tests the position alone.
    pub fn find_non_blank(&self, from: i64, dir: Dir) -> Option<i64>
        ensures { result ≡ find_of self.now from dir }
    {
        let placed = self.placed();
        match dir {
            Dir::L => spot(placed.last_up_to(from), placed.origin),
            Dir::R => spot(placed.first_from(from), placed.origin),
            Dir::N => {
                if self.get(from) == 0 {
                    return None;
                }
                Some(from)
            }
        }
    }
}

// The positions of two indexes.
fn span(first: Option<usize>, last: Option<usize>, origin: usize) -> Option<Span>
    requires { (reach first ≤ cells_most) × (reach last ≤ cells_most) × (origin ≤ cells_most) }
    ensures { result ≡ span_of origin first last }
{
    let i = first?;
    let j = last?;
    let from = position::of_index(i as u32, origin as u32);
    let to = position::of_index(j as u32, origin as u32);
    Some(Span { from, to })
}

// The position of an index.
fn spot(found: Option<usize>, origin: usize) -> Option<i64>
    requires { (reach found ≤ cells_most) × (origin ≤ cells_most) }
    ensures { result ≡ spot_of origin found }
{
    match found {
        None => None,
        Some(i) => {
            let at = position::of_index(i as u32, origin as u32);
            Some(at)
        }
    }
}
