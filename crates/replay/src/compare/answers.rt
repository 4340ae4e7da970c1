// Compares answers, in the order in which the data has their numbers. A refusal differs always.
use super::numbers;
use crate::read::lists;
use crate::read::timeline::Settings;
use crate::rows;
use capi_numbers::answers;
use outcome::{Outcome, Refusal, Status};
use symbol::Symbol;
use tape::Span;
use timeline_rule::Times;

// The Rust's settings of a timeline: the most slots, and the steps between two of them at first.
const RUST_MOST: u64 = 512;

const RUST_EVERY: u64 = 4096;

// The number of values of a run's answer.
const VALUES: usize = 5;

// The number of symbols that a window is lent.
const WINDOW: usize = 64;

// Compares a run's answer: the outcome's number and its values, 0 for a value that it lacks.
pub(crate) fn expect_answer(row: &[u64], at: usize, answer: Result<Outcome, Refusal>) -> usize {
    let mut out: [u64; 8] = [0; 8];
    let refusal = answers::put_result(&mut out, answer);
    expect_values(row, at, refusal, &out)
}

fn expect_values(row: &[u64], at: usize, refusal: u8, out: &[u64; 8]) -> usize {
    if refusal != 0 {
        return rows::DIFFERS;
    }
    numbers::expect_lists(row, at, VALUES, b"", out)
}

// Compares a number and, where it is not 0, so many positions after it.
fn expect_found(row: &[u64], at: usize, refusal: u8, out: &[u64; 8], positions: usize) -> usize {
    if refusal != 0 {
        return rows::DIFFERS;
    }
    let next = numbers::expect(row, at, out[0]);
    if positions == 0 {
        return next;
    }
    if out[0] == 0 {
        return next;
    }
    let next = numbers::expect_position(row, next, out[1]);
    if positions == 1 {
        return next;
    }
    numbers::expect_position(row, next, out[2])
}

// Compares a step's answer: 0 running, 1 halted, 2 full.
pub(crate) fn expect_step(row: &[u64], at: usize, answer: Result<Status, Refusal>) -> usize {
    let mut out: [u64; 8] = [0; 8];
    let refusal = answers::put_result(&mut out, answer);
    expect_found(row, at, refusal, &out, 0)
}

// Compares a symbol.
pub(crate) fn expect_got(row: &[u64], at: usize, answer: Result<Symbol, Refusal>) -> usize {
    let mut out: [u64; 8] = [0; 8];
    let refusal = answers::put_result(&mut out, answer);
    expect_found(row, at, refusal, &out, 0)
}

// Compares a number of cells.
pub(crate) fn expect_counted(row: &[u64], at: usize, answer: Result<u64, Refusal>) -> usize {
    let mut out: [u64; 8] = [0; 8];
    let refusal = answers::put_result(&mut out, answer);
    expect_found(row, at, refusal, &out, 0)
}

// Compares 0, or 1 and the lowest and the highest position.
pub(crate) fn expect_extent(
    row: &[u64],
    at: usize,
    answer: Result<Option<Span>, Refusal>,
) -> usize {
    let mut out: [u64; 8] = [0; 8];
    let refusal = answers::put_result(&mut out, answer);
    expect_found(row, at, refusal, &out, 2)
}

// Compares 0, or 1 and a position.
pub(crate) fn expect_located(
    row: &[u64],
    at: usize,
    answer: Result<Option<i64>, Refusal>,
) -> usize {
    let mut out: [u64; 8] = [0; 8];
    let refusal = answers::put_result(&mut out, answer);
    expect_found(row, at, refusal, &out, 1)
}

// Asks for the symbols of a window, at most WINDOW, and compares them.
pub(crate) fn expect_window<F: FnOnce(&mut [u8]) -> Result<(), Refusal>>(
    row: &[u64],
    at: usize,
    size: u64,
    ask: F,
) -> usize
    requires { F.IsAlwaysCallable ask }
{
    let mut symbols: [u8; WINDOW] = [0; WINDOW];
    let count = rows::least(size, WINDOW);
    let answer = ask(lists::head_mut(&mut symbols, count));
    match answer {
        Err(_) => rows::DIFFERS,
        Ok(()) => numbers::expect_lists(row, at, count, &symbols, &[]),
    }
}

// At the Rust's settings, compares the number of slots, their interval, and the engine's steps or macro steps. The Rust
// has the same slots only at its own settings.
pub(crate) fn expect_times(
    row: &[u64],
    at: usize,
    settings: Settings,
    times: Times,
    steps: u64,
) -> usize {
    if settings.most != RUST_MOST {
        return at;
    }
    if settings.every != RUST_EVERY {
        return at;
    }
    let at = numbers::expect(row, at, times.count);
    let at = numbers::expect(row, at, times.every);
    numbers::expect(row, at, steps)
}
