// A fresh tape: the word past its first symbol becomes the right side's stack of runs.
ghost use Rattle.std.specs.Prelude.{◌≡◌, ◌+◌, ◌-◌, ◌≤◌, length, get_or};
ghost use Rattle.notation.specs.Limits.{word_most};
ghost use Rattle.rle_stack.specs.Model.{side, places_of};
ghost use Rattle.rle_counts.specs.Model.Words.{word_of, runs_of, fresh_sizes, fresh_check, more_of};

use machine::Machine;
use notation::limits;
use outcome::Refusal;
use rle_stack::inner as stack;

// The number of runs after a push of `s`: one more where `s` differs from the symbol on top.
fn more(count: usize, top: u8, s: u8) -> usize
    requires { count ≤ word_most }
    ensures { (result ≡ more_of count top s) × (result ≤ count + 1) }
{
    if s == top {
        return count;
    }
    count + 1
}

// How many runs the word past its first symbol makes, pushed from its end.
fn runs_in(word: &[u8]) -> usize
    requires { length word.now ≤ word_most }
    ensures { result ≡ runs_of word.now (length word.now - 1) 0 0 }
{
    let mut top = 0;
    let mut count = 0;
    for i in (1..word.len()).rev() {
        count = more(count, top, word[i]);
        top = word[i];
    }
    count
}

// Pushes the word past its first symbol, from its end, and returns the number of runs.
pub fn lay(symbols: &mut [u8], lengths: &mut [u64], word: &[u8]) -> usize
    requires word_len_bound { length word.now ≤ word_most }
    requires word_bound { runs_of word.now (length word.now - 1) 0 0 ≤ places_of symbols.old lengths.old }
    ensures { side symbols.new lengths.new result ≡ word_of word.now (side symbols.old lengths.old 0) }
{
    let mut side = stack::side_to_write(symbols, lengths, 0);
    for i in (1..word.len()).rev() {
        stack::push(&mut side, word[i], 1);
    }
    side.count
}

// Whether there are places for the word's runs, and neither side has more places than the limit.
fn fresh_sizes(word: &[u8], lefts: usize, rights: usize) -> bool
    requires { length word.now ≤ word_most }
    ensures { result ≡ fresh_sizes word.now lefts rights }
{
    if limits::RUNS < lefts {
        return false;
    }
    if limits::RUNS < rights {
        return false;
    }
    runs_in(word) <= rights
}

// The table check, then refusal 8, the word's refusals 9 and 10, then refusal 11.
pub fn fresh_check(
    m: Machine,
    table: &[u8],
    word: &[u8],
    lefts: usize,
    rights: usize,
) -> Result<(), Refusal>
    ensures { result ≡ fresh_check m table.now word.now lefts rights }
{
    m.check(table)?;
    if m.tapes != 1 {
        return Err(Refusal::SeveralTapes);
    }
    machine::word::check_word(m.symbols, word)?;
    if !fresh_sizes(word, lefts, rights) {
        return Err(Refusal::BufferSize);
    }
    Ok(())
}

// The word's first symbol; for an empty word the blank.
pub fn first(word: &[u8]) -> u8
    ensures { result ≡ get_or word.now 0 0 }
{
    word.first().copied().unwrap_or(0)
}
