// One dense tape over a lent slice.
#![tactic(auto)]

pub mod inner;

// The first `len` of the lent cells are the tape's. The other numbers are indexes into them: of position 0, of the
// head, and of the lowest and the highest head so far. A tape that the machine lacks has 0 in every field.
#[derive(Clone, Copy)]
pub struct Tape {
    pub len: usize,
    pub origin: usize,
    pub head: usize,
    pub lowest: usize,
    pub highest: usize,
}

// The positions of the lowest and the highest non-blank cell of a tape that has one.
#[derive(Clone, Copy)]
pub struct Span {
    pub from: i64,
    pub to: i64,
}
