// Positions of a tape, which are signed, and the unsigned numbers that the engines compute with: indexes into a
// lent buffer, and positions raised by 2^63. These are the only functions that look into a signed number.
ghost use Rattle.std.specs.Prelude.{◌≡◌, ◌+◌};
ghost use Rattle.notation.specs.Limits.{raised_zero};
ghost use Rattle.notation.specs.Position.{◌⊖◌, up, dn};
ghost use Rattle.symbol.specs.Model.{raised_of, index_of, index_of_raised};

use notation::limits;

// Position -1, raised.
const BEFORE_ZERO: u64 = 9223372036854775807;

// A position raised by 2^63.
pub fn raised(at: i64) -> u64
    ensures { (result ≡ raised_of at) × (result + dn at ≡ raised_zero + up at) }
{
    if at >= 0 {
        return limits::RAISED_ZERO + at as u64;
    }
    BEFORE_ZERO - (-1 - at) as u64
}

// The position whose raised number is `raised`.
pub fn signed(raised: u64) -> i64
    ensures { result ≡ raised ⊖ raised_zero }
{
    if raised < limits::RAISED_ZERO {
        return -1 - ((BEFORE_ZERO - raised) as i64);
    }
    (raised - limits::RAISED_ZERO) as i64
}

// The position of an index, where index `origin` is position 0.
pub fn of_index(index: u32, origin: u32) -> i64
    ensures { result ≡ index ⊖ origin }
{
    signed(limits::RAISED_ZERO + index as u64 - origin as u64)
}

// The index of a position among `len` cells, where index `origin` is position 0.
pub fn index_of(at: i64, origin: usize, len: usize) -> Option<usize>
    ensures { result ≡ index_of at origin len }
{
    index_of_raised(raised(at), origin, len)
}

// The same for a raised position.
pub fn index_of_raised(raised: u64, origin: usize, len: usize) -> Option<usize>
    ensures { result ≡ index_of_raised raised origin len }
{
    if raised < limits::RAISED_ZERO {
        let below = limits::RAISED_ZERO - raised;
        if below <= origin as u64 {
            let index = origin - below as usize;
            if index < len {
                return Some(index);
            }
        }
        return None;
    }
    let above = raised - limits::RAISED_ZERO;
    if origin < len {
        if above < (len - origin) as u64 {
            return Some(origin + above as usize);
        }
    }
    None
}
