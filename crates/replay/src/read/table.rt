// Most rows begin with a machine and its table.
use super::lists;
use crate::rows;
use machine::Machine;

// The most entries of a table, and the bytes of so many.
const ENTRIES: usize = 512;

const TABLE: usize = 4096;

// The numbers of the move N, and of the blank symbol.
const STAY: u64 = 2;

const BLANK: u64 = 0;

// A machine, its table and how many bytes of it are used, and the place where the row continues.
#[derive(Clone, Copy)]
pub(crate) struct Case {
    pub machine: Machine,
    pub table: [u8; TABLE],
    pub size: usize,
    pub next: usize,
}

// The size of the table: 8 × n × k^t bytes, or 0 where it has over ENTRIES entries.
fn size_of(m: Machine) -> usize {
    let symbols = rows::least(m.symbols, TABLE);
    let mut entries = rows::times(rows::least(m.states, TABLE), symbols);
    if 1 < m.tapes {
        entries = rows::times(entries, symbols);
    }
    if 2 < m.tapes {
        entries = rows::times(entries, symbols);
    }
    if ENTRIES < entries {
        return 0;
    }
    8 * entries
}

// Writes a defined entry at a byte's place, if the table has its eight bytes: the next state, the writes of three
// tapes, and the byte of their moves.
fn put_entry(table: &mut [u8; TABLE], at: usize, next: u16, w0: u8, w1: u8, w2: u8, moves: u8) {
    if TABLE - 8 < at {
        return;
    }
    table_bytes::inner::put_entry(table, at, next, w0, w1, w2, moves);
}

// A number of the entry at a place, or `other` where the entry has fewer numbers.
fn part(row: &[u64], at: usize, width: usize, i: usize, other: u64) -> u64 {
    if i < width {
        return rows::number(row, rows::past(at, i));
    }
    other
}

// The moves of three tapes in one byte, from the entry at a place.
fn moves_at(row: &[u64], at: usize, width: usize) -> u8 {
    let d0 = part(row, at, width, 3, STAY) % 3;
    let d1 = part(row, at, width, 5, STAY) % 3;
    let d2 = part(row, at, width, 7, STAY) % 3;
    (d0 + 3 * d1 + 9 * d2) as u8
}

// Reads the entry at a place: its number, the next state, and the write and the move of each tape.
fn read_entry(row: &[u64], at: usize, width: usize, table: &mut [u8; TABLE]) {
    let entry = rows::least(rows::number(row, at), ENTRIES);
    let next = (rows::number(row, rows::past(at, 1)) % 65536) as u16;
    let w0 = lists::low(part(row, at, width, 2, BLANK));
    let w1 = lists::low(part(row, at, width, 4, BLANK));
    let w2 = lists::low(part(row, at, width, 6, BLANK));
    let moves = moves_at(row, at, width);
    put_entry(table, rows::times(8, entry), next, w0, w1, w2, moves);
}

// Reads all entries of a list.
fn read_entries(row: &[u64], first: usize, count: usize, width: usize) -> [u8; TABLE] {
    let mut table: [u8; TABLE] = [0; TABLE];
    let mut at = first;
    for _ in 0..count {
        read_entry(row, at, width, &mut table);
        at = rows::past(at, width);
    }
    table
}

// Reads the machine's four numbers, the number of defined entries, and these entries.
pub(crate) fn read(row: &[u64]) -> Case {
    let machine = capi_engines::machine_of(
        rows::number(row, 0),
        rows::number(row, 1),
        rows::number(row, 2),
        rows::number(row, 3),
    );
    let width = rows::past(2, rows::times(2, rows::least(machine.tapes, 3)));
    let entries = rows::items_at(row, 4, width);
    Case {
        machine,
        table: read_entries(row, entries.first, entries.count, width),
        size: size_of(machine),
        next: entries.next,
    }
}
