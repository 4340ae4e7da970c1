// Reads the whole listing into lent slices that have space for it.
ghost use Rattle.std.specs.Prelude.{◌≡◌, List, ℕ, ◌+◌, ◌≤◌, min, length, replicate};
ghost use Rattle.timeline_rule.specs.declared.Call.{Call};
ghost use Rattle.timeline_rule.specs.declared.Call.TheVariants.{Seek};
ghost use Rattle.listing_reader.specs.Listing.{line, at_end, listing};
ghost use Rattle.listing_reader.specs.Contents.{last_read, places_of, parsed_of};
ghost use Rattle.listing_reader.specs.Invariants.{sofar, next_of, Leaves, ReaderOk, TurnOk, LentOk};

use super::{Due, Reader, turns};
use machine::Machine;
use timeline_rule::Call;

// Reads the input line by line. The lent slices must contain only 0, and only seeks to step 0.
pub(crate) fn parse(
    input: &[u8],
    table: &mut [u8],
    word: &mut [u8],
    calls: &mut [Call],
) -> Result<Reader, u64>
    requires { LentOk (length table.old) (length word.old) (length calls.old) × (table.old ≡ replicate 4096 0) × (word.old ≡ replicate 81 0) × (calls.old ≡ replicate 64 (Seek 0)) }
    ensures { (result ≡ parsed_of (listing input.now)) × ((table.new, word.new, calls.new) ≡ places_of (last_read input.now)) }
{
    let mut x = Reader {
        due: Due::Names,
        machine: Machine {
            tapes: 0,
            symbols: 0,
            states: 0,
            start: 0,
        },
        word: 0,
        calls: 0,
    };
    let mut at = 0;
    let mut n: u64 = 1;
    // The step is a line. `split` would give one more line after a last newline.
    while at < input.len() {
        let e = listing_text::inner::find(input, at, b'\n');
        if 80 < e - at {
            return Err(n);
        }
        let t = take_line(x, &input[at..e], table, word, calls);
        let Some(y) = t else {
            return Err(n);
        };
        x = y;
        at = after(e, input.len());
        n += 1;
    }
    finish(x, n)
}

// Reads one line as the kind of line that is due.
fn take_line(
    x: Reader,
    l: &[u8],
    table: &mut [u8],
    word: &mut [u8],
    calls: &mut [Call],
) -> Option<Reader>
    requires { ReaderOk x × (length l.now ≤ 80) × LentOk (length table.old) (length word.old) (length calls.old) }
    ensures { (next_of result table.new word.new calls.new ≡ line x.due (sofar x table.old word.old calls.old) l.now) × TurnOk result × Leaves x.due result x l.now table.old word.old calls.old table.new word.new calls.new }
{
    match x.due {
        Due::Names => turns::names_turn(x, l),
        Due::Numbers => turns::numbers_turn(x, l),
        Due::Columns => turns::columns_turn(x, l),
        Due::Entries => turns::entries_turn(x, l, table),
        Due::Word => turns::word_turn(x, l, word),
        Due::Heading => turns::heading_turn(x, l),
        Due::Calls => turns::calls_turn(x, l, calls),
    }
}

// The index of the next line, after a line that ends at `e`: past its newline, or the end of the input.
fn after(e: usize, len: usize) -> usize
    ensures { result ≡ min (e + 1) len }
{
    if e < len { e + 1 } else { len }
}

// The result at the end of the input: only call lines may be missing.
fn finish(x: Reader, n: u64) -> Result<Reader, u64>
    ensures { (t w : List ℕ) (k : List Call) → x.word ≤ length w → x.calls ≤ length k → result ≡ parsed_of (at_end n x.due (sofar x t w k)) }
{
    match x.due {
        Due::Calls => Ok(x),
        Due::Names => Err(n),
        Due::Numbers => Err(n),
        Due::Columns => Err(n),
        Due::Entries => Err(n),
        Due::Word => Err(n),
        Due::Heading => Err(n),
    }
}
