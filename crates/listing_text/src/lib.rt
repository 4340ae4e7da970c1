// Text as bytes: decimal numbers, fields of a line, and printing.
#![tactic(auto, unfolding(notation::specs::Choice::both, notation::specs::Choice::pick))]

ghost use Rattle.std.specs.Prelude.{◌≡◌};
ghost use Rattle.listing_text.specs.Numbers.{digits, number};
ghost use Rattle.listing_text.specs.Pieces.{same_list};
ghost use Rattle.listing_text.specs.Model.{add_digit, zero_first};

pub mod fields;
pub mod inner;

// Reads s as a number: decimal, no zero before another digit, at most 64 bits.
pub fn read_number(s: &[u8]) -> Option<u64>
    ensures { result ≡ number s.now }
{
    if s.is_empty() {
        return None;
    }
    if zero_first(s) {
        return None;
    }
    read_digits(s)
}

#[tactic(auto, unfolding(notation::specs::Choice::both, crate::specs::Model::zero_first))]
fn zero_first(s: &[u8]) -> bool
    ensures { result ≡ zero_first s.now }
{
    2 <= s.len() && s[0] == b'0'
}

fn read_digits(s: &[u8]) -> Option<u64>
    ensures { result ≡ digits 0 s.now }
{
    let mut v: u64 = 0;
    for &b in s {
        v = add_digit(v, b)?;
    }
    Some(v)
}

// Adds one digit: bad where b is no digit, or where the number is over 64 bits.
#[tactic(auto, unfolding(notation::specs::Choice::both, notation::specs::Choice::pick, crate::specs::Model::add_digit))]
fn add_digit(v: u64, b: u8) -> Option<u64>
    ensures { result ≡ add_digit v b }
{
    if !b.is_ascii_digit() {
        return None;
    }
    v.checked_mul(10)?.checked_add(u64::from(b - b'0'))
}

// Whether a and b hold the same bytes.
pub fn same(a: &[u8], b: &[u8]) -> bool
    ensures { result ≡ same_list a.now b.now }
{
    a == b
}
