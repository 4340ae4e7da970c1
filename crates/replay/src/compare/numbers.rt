// Compares numbers and lists of numbers.
use crate::rows;
use notation::limits;

// Compares a number.
pub(crate) fn expect(row: &[u64], at: usize, x: u64) -> usize {
    if row.get(at) == Some(&x) {
        rows::past(at, 1)
    } else {
        rows::DIFFERS
    }
}

// Compares a position that is raised by 2^63.
pub(crate) fn expect_position(row: &[u64], at: usize, raised: u64) -> usize {
    expect(row, at, raised.wrapping_sub(limits::RAISED_ZERO))
}

// Compares what two lists have at an index: the symbol, then the number. A list that is too short has nothing there.
fn expect_item(row: &[u64], at: usize, i: usize, symbols: &[u8], numbers: &[u64]) -> usize {
    let mut next = at;
    if let Some(&symbol) = symbols.get(i) {
        next = expect(row, next, u64::from(symbol));
    }
    if let Some(&number) = numbers.get(i) {
        next = expect(row, next, number);
    }
    next
}

// Compares the first `count` items of two lists, index by index. A list of symbols alone comes with no numbers, a list
// of numbers alone with no symbols.
pub(crate) fn expect_lists(
    row: &[u64],
    from: usize,
    count: usize,
    symbols: &[u8],
    numbers: &[u64],
) -> usize {
    let mut at = from;
    for i in 0..count {
        at = expect_item(row, at, i, symbols, numbers);
    }
    at
}
