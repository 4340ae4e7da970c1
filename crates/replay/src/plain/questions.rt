// Questions to the plain engine: their number, and of each its number, the tape, a position, and a length or a move.
use crate::compare::answers;
use crate::read::question::{Asked, Places};
use crate::read::{lists, question};
use crate::rows;
use machine::{Machine, inner};
use sim::Simulator;

// How many numbers a question has.
pub(crate) const WIDTH: usize = 4;

// Asks a question, and compares its answer.
pub(crate) fn ask<'a>(
    row: &[u64],
    places: Places,
    m: Machine,
    table: &[u8],
    sim: Simulator,
    c0: &'a [u8],
    c1: &'a [u8],
    c2: &'a [u8],
) -> usize {
    let at = places.answer;
    let question = question::read(row, places.question, rows::past(places.question, 2));
    let tape = question.tape;
    match question.asked {
        Asked::Get => {
            let got = sim.get(m, table, c0, c1, c2, tape, question.position);
            answers::expect_got(row, at, got)
        }
        Asked::NonBlank => {
            let extent = sim.non_blank(m, table, c0, c1, c2, tape);
            answers::expect_extent(row, at, extent)
        }
        Asked::CountNonBlank => {
            let counted = sim.count_non_blank(m, table, c0, c1, c2, tape);
            answers::expect_counted(row, at, counted)
        }
        Asked::Window => answers::expect_window(row, at, question.more, |out: &mut [u8]| {
            sim.window(m, table, c0, c1, c2, tape, question.position, out)
        }),
        Asked::FindNonBlank => {
            let dir = inner::dir_of(lists::low(question.more));
            let located = sim.find_non_blank(m, table, c0, c1, c2, tape, question.position, dir);
            answers::expect_located(row, at, located)
        }
    }
}
