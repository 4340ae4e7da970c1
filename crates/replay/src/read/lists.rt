// Lists of numbers in a row, and the first parts of lists.
use crate::rows;
use crate::rows::PLACES;

// A list as bytes and as glyphs, the number of its items, and the place past it.
#[derive(Clone, Copy)]
pub(crate) struct List {
    pub bytes: [u8; PLACES],
    pub glyphs: [u32; PLACES],
    pub count: usize,
    pub next: usize,
}

// The lowest byte of a number.
pub(crate) fn low(x: u64) -> u8 {
    (x % 256) as u8
}

// Stores the lowest byte and the lowest four bytes of a number, if the lists have the place.
fn put(bytes: &mut [u8; PLACES], glyphs: &mut [u32; PLACES], at: usize, x: u64) {
    if at < PLACES {
        bytes[at] = low(x);
        glyphs[at] = (x % 4294967296) as u32;
    }
}

// Reads the number of items, and these items.
pub(crate) fn read(row: &[u64], at: usize) -> List {
    let items = rows::items_at(row, at, 1);
    let mut bytes: [u8; PLACES] = [0; PLACES];
    let mut glyphs: [u32; PLACES] = [0; PLACES];
    let count = items.count;
    for i in 0..count {
        put(
            &mut bytes,
            &mut glyphs,
            i,
            rows::number(row, rows::past(items.first, i)),
        );
    }
    List {
        bytes,
        glyphs,
        count,
        next: items.next,
    }
}

// The first `count` items of a slice, or all where it has fewer.
pub(crate) fn head<T>(list: &[T], count: usize) -> &[T] {
    list.get(..count).unwrap_or(list)
}

// The same of bytes, lent for writing.
pub(crate) fn head_mut(list: &mut [u8], count: usize) -> &mut [u8] {
    if count <= list.len() {
        return &mut list[..count];
    }
    list
}
