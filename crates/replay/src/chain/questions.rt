// Questions to the run-length engine: their number, and of each its number, a position and a length.
use crate::compare::answers;
use crate::read::question;
use crate::read::question::{Asked, Places};
use crate::rows;
use machine::Machine;
use rle::ChainSim;

// How many numbers a question has.
pub(crate) const WIDTH: usize = 3;

// Asks a question, and compares its answer.
pub(crate) fn ask(
    row: &[u64],
    places: Places,
    m: Machine,
    table: &[u8],
    sim: ChainSim,
    ls: &[u8],
    ll: &[u64],
    rs: &[u8],
    rl: &[u64],
) -> usize {
    let at = places.answer;
    let question = question::read(row, places.question, rows::past(places.question, 1));
    match question.asked {
        Asked::Get => {
            let got = sim.get(m, table, ls, ll, rs, rl, question.position);
            answers::expect_got(row, at, got)
        }
        Asked::NonBlank => {
            let extent = sim.non_blank(m, table, ls, ll, rs, rl);
            answers::expect_extent(row, at, extent)
        }
        Asked::CountNonBlank => {
            let counted = sim.count_non_blank(m, table, ls, ll, rs, rl);
            answers::expect_counted(row, at, counted)
        }
        // The engine is not asked to find a cell, so every other number asks for a window.
        Asked::Window | Asked::FindNonBlank => {
            answers::expect_window(row, at, question.more, |out: &mut [u8]| {
                sim.window(m, table, ls, ll, rs, rl, question.position, out)
            })
        }
    }
}
