// A timeline's case begins with its settings and its calls.
use crate::rows;
use timeline_rule::Call;

// The most slots, the steps between two of them at first; the number of calls, the place of the first call, and the
// place past the last.
#[derive(Clone, Copy)]
pub(crate) struct Settings {
    pub most: u64,
    pub every: u64,
    pub count: usize,
    pub first: usize,
    pub next: usize,
}

pub(crate) fn read(row: &[u64], at: usize) -> Settings {
    let calls = rows::items_at(row, rows::past(at, 2), 2);
    Settings {
        most: rows::number(row, at),
        every: rows::number(row, rows::past(at, 1)),
        count: calls.count,
        first: calls.first,
        next: calls.next,
    }
}

// The call at a place: 0 seek, 1 forward, else back; and its number.
pub(crate) fn call_at(row: &[u64], at: usize) -> Call {
    let number = rows::number(row, rows::past(at, 1));
    match rows::number(row, at) {
        0 => Call::Seek(number),
        1 => Call::Forward(number),
        _ => Call::Back(number),
    }
}
