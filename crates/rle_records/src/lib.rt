// The runs of one side of a tape as records, symbol and length together, in a slice that the caller lends.
#![tactic(auto)]

use outcome::Refusal;
use symbol::Symbol;

pub mod inner;

// A run: a symbol, and how many cells in a row hold it. A slice of runs crosses the C boundary.
#[repr(C)]
#[derive(Clone, Copy)]
pub struct Run {
    pub symbol: Symbol,
    pub len: u64,
}
