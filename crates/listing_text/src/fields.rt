// The fields of a line: their number, the place of each, and its value.
ghost use Rattle.std.specs.Prelude.{◌≡◌, ◌+◌, ◌≤◌, length};
ghost use Rattle.listing_text.specs.Numbers.{number, below};
ghost use Rattle.listing_text.specs.Pieces.{fields, field, same_list};

use super::{read_number, same};

pub fn count_fields(l: &[u8]) -> usize
    ensures { (result ≡ length (fields l.now)) × (result ≤ length l.now + 1) }
{
    l.iter().filter(|&&b| b == b' ').count() + 1
}

// Field k of a line; empty where the line has no such field.
fn field(l: &[u8], k: usize) -> &[u8]
    ensures { result.now ≡ field l.now k }
{
    l.split(|&b| b == b' ').nth(k).unwrap_or(b"")
}

// Field k of a line as a number.
pub fn number_at(l: &[u8], k: usize) -> Option<u64>
    ensures { result ≡ number (field l.now k) }
{
    read_number(field(l, k))
}

// Field k of a line as a number below `top`.
pub fn below_at(l: &[u8], k: usize, top: u64) -> Option<u64>
    ensures { result ≡ below top (field l.now k) }
{
    let n = number_at(l, k)?;
    if n < top {
        return Some(n);
    }
    None
}

// Whether field k of a line is w.
pub fn field_is(l: &[u8], k: usize, w: &[u8]) -> bool
    ensures { result ≡ same_list (field l.now k) w.now }
{
    same(field(l, k), w)
}
