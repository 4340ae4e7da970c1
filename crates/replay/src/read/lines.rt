// Reads lines of text into rows of numbers.
use crate::rows::PLACES;

// A row that is being read: how many numbers it has, and the digits and the sign of the next one. The sign stays a flag,
// since it comes before the digits that it changes, and a number without a minus has a value too.
#[derive(Clone, Copy)]
struct Reading {
    count: usize,
    value: u64,
    negative: bool,
}

impl Reading {
    // A row with so many numbers, before the next one.
    fn after(count: usize) -> Reading {
        Reading {
            count,
            value: 0,
            negative: false,
        }
    }
}

// How many numbers a line has, and where the next line begins. There is no count where a number does not fit in 64 bits
// or has no place; such a line counts as a difference.
#[derive(Clone, Copy)]
pub(crate) struct Line {
    pub count: Option<usize>,
    pub next: usize,
}

// A number with one more digit, where it fits in 64 bits.
fn longer(value: u64, digit: u8) -> Option<u64> {
    value.checked_mul(10)?.checked_add(u64::from(digit))
}

// Adds a digit to the number, where it fits in 64 bits.
fn add_digit(reading: Reading, digit: u8) -> Option<Reading> {
    let value = longer(reading.value, digit)?;
    Some(Reading { value, ..reading })
}

// Adds the number that was read to the row, if the row has a place, a negative one as its two's complement.
fn end_number(row: &mut [u64; PLACES], reading: Reading) -> Option<Reading> {
    let count = reading.count;
    if PLACES <= count {
        return None;
    }
    row[count] = if reading.negative {
        reading.value.wrapping_neg()
    } else {
        reading.value
    };
    Some(Reading::after(count + 1))
}

// Reads one more byte of a line. A byte that is no part of a number ends a number as a space does, so such a line has
// other numbers than were written.
fn read_byte(row: &mut [u64; PLACES], reading: Reading, byte: u8) -> Option<Reading> {
    match byte {
        b'-' => Some(Reading {
            negative: true,
            ..reading
        }),
        b'0'..=b'9' => add_digit(reading, byte - b'0'),
        _ => end_number(row, reading),
    }
}

// Adds the last number of a line, and counts the numbers.
fn end_line(row: &mut [u64; PLACES], reading: Option<Reading>) -> Option<usize> {
    Some(end_number(row, reading?)?.count)
}

// Reads the numbers of the line that begins at a place.
pub(crate) fn read_line(text: &[u8], from: usize, row: &mut [u64; PLACES]) -> Line {
    let mut reading = Some(Reading::after(0));
    let mut next = from;
    // A `skip` would walk over all lines before this one.
    let rest = text.get(from..).unwrap_or(b"");
    for (i, &byte) in rest.iter().enumerate() {
        next = from + i + 1;
        if byte == b'\n' {
            break;
        }
        if let Some(before) = reading {
            reading = read_byte(row, before, byte);
        }
    }
    Line {
        count: end_line(row, reading),
        next,
    }
}
