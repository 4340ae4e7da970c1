// A line of the data is a row of numbers: what is asked, then what the Rust answered. A place past a row's end holds 0,
// so no call requires a bound.
use notation::limits;
use symbol::position;

// The number of places of a row.
pub(crate) const PLACES: usize = 1024;

// The place of a case that differs. It lies past every row.
pub(crate) const DIFFERS: usize = 4096;

// The number of bytes that a timeline is lent to save engines in.
pub(crate) const STORE: usize = 524288;

// A list in a row: the number of its items, the place of its first item, and the place past its last one.
#[derive(Clone, Copy)]
pub(crate) struct Items {
    pub count: usize,
    pub first: usize,
    pub next: usize,
}

// The number at a place of a row.
pub(crate) fn number(row: &[u64], at: usize) -> u64 {
    row.get(at).copied().unwrap_or(0)
}

// The position at a place of a row; a negative position is given by its two's complement.
pub(crate) fn position_at(row: &[u64], at: usize) -> i64 {
    position::signed(number(row, at).wrapping_add(limits::RAISED_ZERO))
}

// The place `count` numbers further on, or DIFFERS where `at` or `count` is over PLACES.
pub(crate) fn past(at: usize, count: usize) -> usize {
    if PLACES < at {
        return DIFFERS;
    }
    if PLACES < count {
        return DIFFERS;
    }
    at + count
}

// The smaller of a number and a bound.
pub(crate) fn least(number: u64, bound: usize) -> usize {
    number.min(bound as u64) as usize
}

// The product of two numbers, or DIFFERS where one is over PLACES.
pub(crate) fn times(a: usize, b: usize) -> usize {
    if PLACES < a {
        return DIFFERS;
    }
    if PLACES < b {
        return DIFFERS;
    }
    a * b
}

// The list at a place: the number of its items, at most PLACES, then the items, each of `width` numbers.
pub(crate) fn items_at(row: &[u64], at: usize, width: usize) -> Items {
    let count = least(number(row, at), PLACES);
    let first = past(at, 1);
    Items {
        count,
        first,
        next: past(first, times(count, width)),
    }
}
