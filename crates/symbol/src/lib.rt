// Tape symbols, states and head moves.
#![tactic(auto)]

ghost use Rattle.std.specs.Prelude.{◌≡◌, ◌≤◌, eqb};
ghost use Rattle.symbol.specs.Kinds.{symbol_of, state_of, dir_number, delta_of, reversed_of};

pub mod position;

// A tape symbol, by its number. Number 0 is the blank, which fills every cell that was never written.
// The layout is C's, since the record of a run contains a symbol and crosses the C boundary.
#[repr(C)]
#[derive(Clone, Copy, PartialEq, Eq)]
pub struct Symbol(pub u8);

impl Symbol {
    pub const BLANK: Symbol = Symbol(0);

    pub fn new(index: u8) -> Symbol
        ensures { result ≡ symbol_of index }
    {
        Symbol(index)
    }

    pub fn get(self) -> u8
        ensures { result ≡ self.0 }
    {
        self.0
    }

    pub fn is_blank(self) -> bool
        ensures { result ≡ eqb self.0 0 }
    {
        self == Symbol::BLANK
    }
}

// A control state, by its number.
#[derive(Clone, Copy, PartialEq, Eq)]
pub struct State(pub u16);

impl State {
    pub fn new(index: u16) -> State
        ensures { result ≡ state_of index }
    {
        State(index)
    }

    pub fn get(self) -> u16
        ensures { result ≡ self.0 }
    {
        self.0
    }
}

// The move of a head after writing: one cell left, one cell right, or none.
#[derive(Clone, Copy, PartialEq, Eq)]
pub enum Dir {
    L,
    R,
    N,
}

impl Dir {
    // The move's number in a table's entry and in a packed word.
    pub fn number(self) -> u8
        ensures { (result ≡ dir_number self) × (result ≤ 2) }
    {
        match self {
            Dir::L => 0,
            Dir::R => 1,
            Dir::N => 2,
        }
    }

    // The change of the head's position.
    pub fn delta(self) -> i64
        ensures { result ≡ delta_of self }
    {
        match self {
            Dir::L => -1,
            Dir::R => 1,
            Dir::N => 0,
        }
    }

    // The opposite move.
    pub fn reversed(self) -> Dir
        ensures { result ≡ reversed_of self }
    {
        match self {
            Dir::L => Dir::R,
            Dir::R => Dir::L,
            Dir::N => Dir::N,
        }
    }
}
