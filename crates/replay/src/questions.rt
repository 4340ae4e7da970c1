// Questions to an engine: their number, then the numbers of each.
use crate::lent::Engine;
use crate::read::question::Places;
use crate::rows;
use machine::Machine;

// Asks all questions.
pub(crate) fn replay<E: Engine>(
    row: &[u64],
    at: usize,
    m: Machine,
    table: &[u8],
    engine: E,
) -> usize {
    let questions = rows::items_at(row, at, E::width());
    let mut places = Places {
        question: questions.first,
        answer: questions.next,
    };
    for _ in 0..questions.count {
        places = Places {
            question: rows::past(places.question, E::width()),
            answer: engine.ask(row, places, m, table),
        };
    }
    places.answer
}
