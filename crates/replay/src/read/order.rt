// The order of a run: its stop rule and its fuel.
use crate::rows;
use symbol::State;

#[derive(Clone, Copy)]
pub(crate) struct Order {
    pub rule: Option<State>,
    pub fuel: u64,
    // the place past the order
    pub next: usize,
}

pub(crate) fn read(row: &[u64], at: usize) -> Order {
    Order {
        rule: capi_engines::rule_of(rows::number(row, at)),
        fuel: rows::number(row, rows::past(at, 1)),
        next: rows::past(at, 2),
    }
}
