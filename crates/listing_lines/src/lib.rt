// The lines of a listing: the fixed ones, and those that contain numbers.
#![tactic(auto)]

ghost use Rattle.std.specs.Prelude.{◌≡◌};
ghost use Rattle.listing_text.specs.Pieces.{field, same_list};
ghost use Rattle.listing_lines.specs.Forms.{first_line, columns_line, word_line, heading_line, machine_ok, machine_line, move, entry_line, call_line};

use listing_text::fields;
use machine::Machine;
use symbol::Dir;
use timeline_rule::Call;

pub mod inner;

// What an entry line says.
#[derive(Clone, Copy)]
pub struct Rule {
    pub state: u64,
    pub read: u64,
    pub write: u64,
    pub dir: Dir,
    pub next: u64,
}

pub fn is_first(l: &[u8]) -> bool
    ensures { result ≡ same_list l.now first_line }
{
    listing_text::same(l, b"tapes symbols states start")
}

pub fn is_columns(l: &[u8]) -> bool
    ensures { result ≡ same_list l.now columns_line }
{
    listing_text::same(l, b"state read write move next")
}

pub fn is_word(l: &[u8]) -> bool
    ensures { result ≡ same_list l.now word_line }
{
    listing_text::same(l, b"word")
}

pub fn is_heading(l: &[u8]) -> bool
    ensures { result ≡ same_list l.now heading_line }
{
    listing_text::same(l, b"call number")
}

pub fn machine_line(l: &[u8]) -> Option<Machine>
    ensures { result ≡ machine_line l.now }
{
    if fields::count_fields(l) != 4 {
        return None;
    }
    let tapes = fields::number_at(l, 0)?;
    let symbols = fields::number_at(l, 1)?;
    let states = fields::number_at(l, 2)?;
    let start = fields::number_at(l, 3)?;
    if machine_ok(tapes, symbols, states, start) {
        return Some(Machine {
            tapes,
            symbols,
            states,
            start,
        });
    }
    None
}

// Whether a machine has one tape, numbers in their ranges, and a table of at most 512 entries.
fn machine_ok(t: u64, k: u64, n: u64, s: u64) -> bool
    ensures { result ≡ machine_ok t k n s }
{
    if t != 1 {
        return false;
    }
    if k < 1 {
        return false;
    }
    if 256 < k {
        return false;
    }
    if n < 1 {
        return false;
    }
    if 65536 < n {
        return false;
    }
    if n <= s {
        return false;
    }
    n * k <= 512
}

pub fn entry_line(m: Machine, l: &[u8]) -> Option<Rule>
    ensures { result ≡ entry_line m l.now }
{
    if fields::count_fields(l) != 5 {
        return None;
    }
    let state = fields::below_at(l, 0, m.states)?;
    let read = fields::below_at(l, 1, m.symbols)?;
    let write = fields::below_at(l, 2, m.symbols)?;
    let dir = move_at(l, 3)?;
    let next = fields::below_at(l, 4, m.states)?;
    Some(Rule {
        state,
        read,
        write,
        dir,
        next,
    })
}

// The move in field k of a line.
fn move_at(l: &[u8], k: usize) -> Option<Dir>
    ensures { result ≡ move (field l.now k) }
{
    if fields::field_is(l, k, b"L") {
        return Some(Dir::L);
    }
    if fields::field_is(l, k, b"R") {
        return Some(Dir::R);
    }
    if fields::field_is(l, k, b"N") {
        return Some(Dir::N);
    }
    None
}

pub fn call_line(l: &[u8]) -> Option<Call>
    ensures { result ≡ call_line l.now }
{
    if fields::count_fields(l) != 2 {
        return None;
    }
    let number = fields::number_at(l, 1)?;
    if fields::field_is(l, 0, b"seek") {
        return Some(Call::Seek(number));
    }
    if fields::field_is(l, 0, b"forward") {
        return Some(Call::Forward(number));
    }
    if fields::field_is(l, 0, b"back") {
        return Some(Call::Back(number));
    }
    None
}
