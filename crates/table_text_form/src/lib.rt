// The one-line form of a table, as an automaton that reads a line byte by byte: definitions and theorems, no code.

// How much of an entry the bytes before a place have: nothing; its symbol; its symbol and its move; one dash; two dashes.
#![tactic(auto)]

#[derive(Clone, Copy)]
pub enum Phase {
    Between,
    Wrote,
    Moved,
    Dash,
    Dashes,
}

// The bytes before a place as a part of a line: `rows` whole rows with their underscores, then `col` whole entries, then
// the part of an entry that `phase` says. `width` is the number of entries of the first row, or 0 in that row.
#[derive(Clone, Copy)]
pub struct Spot {
    pub width: u64,
    pub rows: u64,
    pub col: u64,
    pub phase: Phase,
}
