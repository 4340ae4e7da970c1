// Cases of packing: a table, then its packed words.
use crate::compare::numbers;
use crate::read::{lists, table};
use crate::rows;
use crate::rows::PLACES;

pub(crate) fn replay(row: &[u64]) -> usize {
    let case = table::read(row);
    let m = case.machine;
    let table = case.table;
    let mut words: [u64; PLACES] = [0; PLACES];
    let checked = m.pack(lists::head(&table, case.size), &mut words);
    match checked {
        Err(_) => rows::DIFFERS,
        Ok(()) => numbers::expect_lists(row, case.next, case.size / 8, b"", &words),
    }
}
