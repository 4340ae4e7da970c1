// One side of a tape. `Runs` is a side to read, and `Stack` is a side to write; the live runs of both have places.
mod to_write;

ghost use Rattle.std.specs.Prelude.{◌≡◌, List, ℕ, ◌+◌, ◌≤◌, ◌<◌, min, eqb, length, get_or};
ghost use Rattle.notation.specs.Choice.{pick};
ghost use Rattle.notation.specs.Limits.{raised_zero};
ghost use Rattle.rle_stack.specs.Model.{Side, side, places_of, symbol_under, top_of, ahead_of, lacks, take_of, run_fits, runs_fit, cells_of, cell_at, written_of, near_of};

use std::marker::Model;
pub use to_write::{push, side_to_write};

// The lengths of a side's runs: numbers, or the bytes of a slot.
pub trait Lengths: Drop {
    ghost list: { Self → List ℕ };

    fn at(&self, i: usize) -> u64
        requires { i < length (list self.now) }
        ensures { result ≡ get_or (list self.now) i 0 };
}

impl<'a> Lengths for &'a [u64] {
    ghost list = { λ l. l.now };

    fn at(&self, i: usize) -> u64 {
        self[i]
    }
}

// A side to read: the first `count` symbols and lengths are its live runs, of which the last is next to the head.
#[derive(Drop)]
pub struct Runs<'a, L: Lengths> {
    symbols: &'a [u8],
    lengths: L,
    count: usize,
}

impl<'a, L: Lengths> Model for Runs<'a, L> {
    ghost Value = { Side };

    ghost view = { λ r. side r.symbols.now (L.list r.lengths) r.count };

    ghost invariant = { λ r. (r.count ≤ length r.symbols.now) × (r.count ≤ length (L.list r.lengths)) };
}

// A side to read.
pub fn side_to_read<'a, L: Lengths>(symbols: &'a [u8], lengths: L, count: usize) -> Runs<'a, L>
    requires { (count ≤ length symbols.now) × (count ≤ length (L.list lengths)) }
    ensures { result ≡ side symbols.now (L.list lengths) count }
{
    Runs {
        symbols,
        lengths,
        count,
    }
}

impl<'a, L: Lengths> Runs<'a, L> {
    pub fn count(&self) -> usize
        ensures { result ≡ self.now.count }
    {
        self.count
    }

    // Whether run i has a cell, a symbol below k, and another symbol than the run under it.
    fn run_fits(&self, i: usize, k: u64) -> bool
        requires { i < self.now.count }
        ensures { result ≡ run_fits k self.now.symbols self.now.lengths i }
    {
        let symbol = self.symbols[i];
        if self.lengths.at(i) == 0 {
            return false;
        }
        if k <= u64::from(symbol) {
            return false;
        }
        symbol != top(self.symbols, i)
    }

    // Whether the live runs meet the stack rule, with symbols below k.
    pub fn runs_fit(&self, k: u64) -> bool
        ensures { result ≡ runs_fit k self.now }
    {
        for i in 0..self.count {
            if !self.run_fits(i, k) {
                return false;
            }
        }
        true
    }

    // The symbol at a distance from the head; the next cell is at distance 0.
    pub fn symbol_at(&self, distance: u64) -> u8
        ensures { result ≡ cell_at self.now distance }
    {
        let mut d = distance;
        for i in (0..self.count).rev() {
            let len = self.lengths.at(i);
            if d < len {
                return self.symbols[i];
            }
            d -= len;
        }
        0
    }
}

// The symbol and the length of run i.
pub fn run<L: Lengths>(side: &Runs<'_, L>, i: usize) -> (u8, u64)
    requires { i < side.now.count }
    ensures { (result.0 ≡ get_or side.now.symbols i 0) × (result.1 ≡ get_or side.now.lengths i 0) }
{
    let symbol = side.symbols[i];
    (symbol, side.lengths.at(i))
}

// How many cells the live runs have, or `most + 1` where they have more than `most`.
pub fn cells<L: Lengths>(side: &Runs<'_, L>, most: u64) -> u64
    requires { most < raised_zero }
    ensures { result ≡ min (cells_of side.now) (most + 1) }
{
    let mut sum = 0;
    for i in 0..side.count {
        let len = side.lengths.at(i);
        if most - sum < len {
            return most + 1;
        }
        sum += len;
    }
    sum
}

// How many cells of the live runs are not blank.
pub fn written<L: Lengths>(side: &Runs<'_, L>) -> u64
    requires { cells_of side.now < raised_zero }
    ensures { (result ≡ written_of side.now) × (result ≤ cells_of side.now) }
{
    let mut sum = 0;
    for i in 0..side.count {
        sum += weight(side.symbols[i], side.lengths.at(i));
    }
    sum
}

// The distance of the nearest cell that is not blank, on a side with runs; the next cell is at distance 1.
pub fn near<L: Lengths>(side: &Runs<'_, L>) -> u64
    requires { (0 < side.now.count) × (cells_of side.now < raised_zero) }
    ensures { (result ≡ near_of side.now) × (result ≤ cells_of side.now + 1) }
{
    if top(side.symbols, side.count) == 0 {
        return side.lengths.at(side.count - 1) + 1;
    }
    1
}

// How many cells of a run are not blank.
fn weight(symbol: u8, len: u64) -> u64
    ensures { (result ≡ pick (eqb symbol 0) 0 len) × (result ≤ len) }
{
    if symbol == 0 {
        return 0;
    }
    len
}

// The symbol next to the head; below the bottom run all cells are blank.
pub fn top(symbols: &[u8], count: usize) -> u8
    requires { count ≤ length symbols.now }
    ensures { result ≡ symbol_under symbols.now count }
{
    if count == 0 {
        return 0;
    }
    symbols[count - 1]
}

// Whether a push of `s` needs a new run for which there is no place. The places are tested first, since a run of the
// engine rarely fills them.
pub fn lacks(symbols: &[u8], count: usize, places: usize, s: u8) -> bool
    requires { count ≤ length symbols.now }
    ensures { (ls : List ℕ) → result ≡ lacks places s (side symbols.now ls count) }
{
    if count < places {
        return false;
    }
    s != top(symbols, count)
}

// Takes n cells off the run next to the head, and returns the new count of runs.
pub fn take(lengths: &mut [u64], count: usize, n: u64) -> usize
    requires { count ≤ length lengths.old }
    ensures { (ss : List ℕ) → side ss lengths.new result ≡ take_of n (side ss lengths.old count) }
{
    if count == 0 {
        return 0;
    }
    let left = lengths[count - 1].saturating_sub(n);
    lengths[count - 1] = left;
    if left == 0 {
        return count - 1;
    }
    count
}

// A side to write: its live runs lie in the first `count` of `places` places.
#[derive(Drop)]
pub struct Stack<'a> {
    pub symbols: &'a mut [u8],
    pub lengths: &'a mut [u64],
    pub places: usize,
    pub count: usize,
    pub ghost live: { (count ≤ places) × (places ≡ places_of symbols.now lengths.now) },
}

impl<'a> Stack<'a> {
    ghost use Rattle.rle_stack.specs.Written.{held, SameSlices};

    // The symbol next to the head.
    pub fn top(&self) -> u8
        ensures { result ≡ top_of (held self.now) }
    {
        top(self.symbols, self.count)
    }

    // How many cells of symbol `a` lie next to the head.
    pub fn ahead(&self, a: u8) -> u64
        ensures { result ≡ ahead_of a (held self.now) }
    {
        if self.count == 0 {
            0
        } else if self.symbols[self.count - 1] == a {
            self.lengths[self.count - 1]
        } else {
            0
        }
    }

    // Whether a push of `s` needs a new run for which there is no place.
    pub fn lacks(&self, s: u8) -> bool
        ensures { result ≡ lacks self.now.places s (held self.now) }
    {
        lacks(self.symbols, self.count, self.places, s)
    }

    // Takes n cells off the run next to the head.
    pub fn take(&mut self, n: u64)
        ensures same { SameSlices self.old self.new }
        ensures taken { held self.new ≡ take_of n (held self.old) }
    {
        self.count = take(self.lengths, self.count, n);
    }
}

// The number of places of a side: the length of its shorter slice.
pub fn places(symbols: &[u8], lengths: &[u64]) -> usize
    ensures { result ≡ places_of symbols.now lengths.now }
{
    symbols.len().min(lengths.len())
}
