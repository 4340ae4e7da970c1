// A question: what it asks, the tape, a position, and a length or a move. A question to the run-length engine has no
// tape.
use crate::rows;

// What a question asks. Each has the name of the method that answers it.
#[derive(Clone, Copy, PartialEq, Eq)]
pub(crate) enum Asked {
    Get,
    NonBlank,
    CountNonBlank,
    Window,
    FindNonBlank,
}

#[derive(Clone, Copy)]
pub(crate) struct Question {
    pub asked: Asked,
    pub tape: u64,
    pub position: i64,
    pub more: u64,
}

// The places of the next question and of its answer.
#[derive(Clone, Copy)]
pub(crate) struct Places {
    pub question: usize,
    pub answer: usize,
}

// What a number asks.
fn asked_by(number: u64) -> Asked {
    match number {
        0 => Asked::Get,
        1 => Asked::NonBlank,
        2 => Asked::CountNonBlank,
        3 => Asked::Window,
        _ => Asked::FindNonBlank,
    }
}

// Reads the question at a place, whose position is at the place `position`.
pub(crate) fn read(row: &[u64], at: usize, position: usize) -> Question {
    Question {
        asked: asked_by(rows::number(row, at)),
        tape: rows::number(row, rows::past(at, 1)),
        position: rows::position_at(row, position),
        more: rows::number(row, rows::past(position, 1)),
    }
}
