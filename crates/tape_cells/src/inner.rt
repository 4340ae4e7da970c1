// Fills, copies and scans of the cells of a tape, and the growth of a tape. These functions use no head and no position.
ghost use Rattle.std.specs.Prelude.{◌≡◌, ◌↔◌, ◌+◌, ◌≤◌, ◌<◌, ◌==◌, not, All, IsTrue, MatchOption, count_by, position, length};
ghost use Rattle.notation.specs.Limits.{cells_most};
ghost use Rattle.tape_cells.specs.Growth.{extra};
ghost use Rattle.tape_cells.specs.Model.{blanked, moved_up, fresh_cells, reach, found_cell, IsLastWritten};

// The cell at an index, where there is one; else blank.
pub fn at(cells: &[u8], found: Option<usize>) -> u8
    requires { reach found ≤ length cells.now }
    ensures { result ≡ found_cell cells.now found }
{
    match found {
        None => 0,
        Some(i) => cells[i],
    }
}

// Writes 16 blanks, the word, 16 blanks.
pub fn fresh(cells: &mut [u8], word: &[u8])
    requires { 32 + length word.now ≤ length cells.old }
    ensures { cells.new ≡ fresh_cells word.now cells.old }
{
    let end = 16 + word.len();
    cells[..16].fill(0);
    cells[16..end].copy_from_slice(word);
    cells[end..end + 16].fill(0);
}

// Puts `more` blanks before the first `len` cells. The buffer goes on past the tape, so `len` says where the tape ends.
pub fn open_left(cells: &mut [u8], more: usize, len: usize)
    requires { len + more ≤ length cells.old }
    ensures { cells.new ≡ blanked 0 more (moved_up more len cells.old) }
{
    cells.copy_within(..len, more);
    cells[..more].fill(0);
}

// Puts `more` blanks after the first `len` cells.
pub fn open_right(cells: &mut [u8], more: usize, len: usize)
    requires { len + more ≤ length cells.old }
    ensures { cells.new ≡ blanked len (len + more) cells.old }
{
    cells[len..len + more].fill(0);
}

// Whether the cells are symbols below `k`.
pub fn all_below(cells: &[u8], k: u64) -> bool
    ensures { IsTrue result ↔ All (λ x. x < k) cells.now }
{
    cells.iter().all(|&x| u64::from(x) < k)
}

// Whether the cells are all blank.
pub fn all_blank(cells: &[u8]) -> bool
    ensures { IsTrue result ↔ All (λ x. x ≡ 0) cells.now }
{
    cells.iter().all(|&x| x == 0)
}

// The lowest non-blank cell.
pub fn first_written(cells: &[u8]) -> Option<usize>
    ensures { result ≡ position (λ x. not (x == 0)) cells.now }
{
    cells.iter().position(|&x| x != 0)
}

// The highest non-blank cell. The library's `rposition` took a third to a half longer for each blank cell.
pub fn last_written(cells: &[u8]) -> Option<usize>
    ensures { MatchOption result (All (λ x. x ≡ 0) cells.now) (IsLastWritten cells.now) }
{
    for i in (0..cells.len()).rev() {
        if cells[i] != 0 {
            return Some(i);
        }
    }
    None
}

// How many of the cells are not blank. The library's `filter` with `count` has a branch for each cell: on mixed cells it
// took six to seven times as long.
pub fn count_written(cells: &[u8]) -> u64
    ensures { result ≡ count_by (λ x. not (x == 0)) cells.now }
{
    cells.iter().map(|&x| u64::from(x != 0)).sum()
}

// How many cells a growth adds: as many as there are, or none where the buffer has no space for them.
pub fn extra(len: usize, cap: usize) -> usize
    requires { len ≤ cells_most }
    ensures { (result ≡ extra len cap) × (result ≤ len) }
{
    if len + len <= cap {
        return len;
    }
    0
}
