// Functions that read a line, one for each kind of line. Each writes at most one of the lent slices, so its contract
// is true for any lists in place of the others.
ghost use Rattle.std.specs.Prelude.{◌≡◌, List, ℕ, ◌≤◌, length};
ghost use Rattle.timeline_rule.specs.declared.Call.{Call};
ghost use Rattle.listing_reader.specs.declared.Due.TheVariants.{Names, Numbers, Columns, Entries, Word, Heading, Calls};
ghost use Rattle.listing_reader.specs.Listing.{line};
ghost use Rattle.listing_lines.specs.Forms.{word_before};
ghost use Rattle.listing_lines.specs.Model.{over};
ghost use Rattle.listing_reader.specs.Invariants.{sofar, next_of, TableLeft, CallsLeft, ReaderOk, TurnOk};

use super::{Due, Reader};
use timeline_rule::Call;

pub(crate) fn names_turn(x: Reader, l: &[u8]) -> Option<Reader>
    requires { ReaderOk x }
    ensures { ((t w : List ℕ) (k : List Call) → next_of result t w k ≡ line Names (sofar x t w k) l.now) × TurnOk result }
{
    if listing_lines::is_first(l) {
        return Some(Reader {
            due: Due::Numbers,
            ..x
        });
    }
    None
}

pub(crate) fn numbers_turn(x: Reader, l: &[u8]) -> Option<Reader>
    requires { ReaderOk x }
    ensures { ((t w : List ℕ) (k : List Call) → next_of result t w k ≡ line Numbers (sofar x t w k) l.now) × TurnOk result }
{
    let machine = listing_lines::machine_line(l)?;
    Some(Reader {
        due: Due::Columns,
        machine,
        ..x
    })
}

pub(crate) fn columns_turn(x: Reader, l: &[u8]) -> Option<Reader>
    requires { ReaderOk x }
    ensures { ((t w : List ℕ) (k : List Call) → next_of result t w k ≡ line Columns (sofar x t w k) l.now) × TurnOk result }
{
    if listing_lines::is_columns(l) {
        return Some(Reader {
            due: Due::Entries,
            ..x
        });
    }
    None
}

pub(crate) fn entries_turn(x: Reader, l: &[u8], table: &mut [u8]) -> Option<Reader>
    requires { ReaderOk x × (length table.old ≡ 4096) }
    ensures { ((w : List ℕ) (k : List Call) → next_of result table.new w k ≡ line Entries (sofar x table.old w k) l.now) × TurnOk result × TableLeft result table.old table.new }
{
    if listing_lines::is_word(l) {
        return Some(Reader {
            due: Due::Word,
            ..x
        });
    }
    let e = listing_lines::entry_line(x.machine, l)?;
    if listing_lines::inner::give(x.machine, e, table) {
        return None;
    }
    Some(Reader {
        due: Due::Entries,
        ..x
    })
}

pub(crate) fn word_turn(x: Reader, l: &[u8], word: &mut [u8]) -> Option<Reader>
    requires { ReaderOk x × (length l.now ≤ 80) × (81 ≤ length word.old) }
    ensures { ((t : List ℕ) (k : List Call) → next_of result t word.new k ≡ line Word (sofar x t word.old k) l.now) × TurnOk result × (word.new ≡ over (word_before x.machine.symbols l.now) word.old) }
{
    let n = listing_lines::inner::read_word(x.machine.symbols, l, word)?;
    Some(Reader {
        due: Due::Heading,
        word: n,
        ..x
    })
}

pub(crate) fn heading_turn(x: Reader, l: &[u8]) -> Option<Reader>
    requires { ReaderOk x }
    ensures { ((t w : List ℕ) (k : List Call) → next_of result t w k ≡ line Heading (sofar x t w k) l.now) × TurnOk result }
{
    if listing_lines::is_heading(l) {
        return Some(Reader {
            due: Due::Calls,
            ..x
        });
    }
    None
}

pub(crate) fn calls_turn(x: Reader, l: &[u8], calls: &mut [Call]) -> Option<Reader>
    requires { ReaderOk x × (64 ≤ length calls.old) }
    ensures { ((t w : List ℕ) → next_of result t w calls.new ≡ line Calls (sofar x t w calls.old) l.now) × TurnOk result × CallsLeft result x.calls l.now calls.old calls.new }
{
    let n = x.calls;
    if 64 <= n {
        return None;
    }
    let call = listing_lines::call_line(l)?;
    calls[n] = call;
    Some(Reader {
        due: Due::Calls,
        calls: n + 1,
        ..x
    })
}
