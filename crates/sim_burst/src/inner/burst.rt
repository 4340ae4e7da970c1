// A burst: the ordinary steps of a machine with one tape, up to the first step that needs a decision.
ghost use Rattle.std.specs.Prelude.{◌<◌};
ghost use Rattle.sim_burst.specs.Model.Burst.{BurstOk, Reached};

use super::entries::Entries;
use super::step;
use super::step::BurstState;

// What a burst goes by: its entries, whether the never test is made, the state of the stop rule, the number of symbols,
// and the length of the tape.
#[derive(Clone, Copy)]
pub struct Rules<E> {
    pub entries: E,
    pub proves: bool,
    pub stop: usize,
    pub k: usize,
    pub len: usize,
}

// Makes the steps of a burst up to the first that needs a look at other cells. This is the hot loop: it has no scan.
fn stretch<E: Entries>(by: Rules<E>, cells: &mut [u8], start: BurstState) -> BurstState
    requires { BurstOk cells.old by.k by.len start }
    ensures { Reached (E.known by.entries by.k) by.proves by.stop by.k by.len start cells.old result cells.new }
{
    let mut at = start;
    let mut row = step::row(start.state, by.k);
    // Here and below fuel and the stop rule are two tests: with `||` the check makes no proof of the function.
    loop {
        if at.left == 0 {
            return at;
        }
        if at.state == by.stop {
            return at;
        }
        let head = at.head;
        let read = cells[head];
        let Some(entry) = by.entries.entry(by.k, row + step::wide(read)) else {
            return at;
        };
        if !step::ordinary_by_entry(by.proves, at.state, read, entry) {
            return at;
        }
        let Some(after) = step::went(at, by.len, entry) else {
            return at;
        };
        cells[head] = entry.write;
        at = after;
        row = entry.row;
    }
}

// Makes the ordinary steps. It stops before a step that has no fuel, begins in the stop rule's state, has no known
// entry, may be a proved loop, or leaves the cells. It makes a stretch, one step with a look at the cells, and so on.
#[tactic(auto, using(crate::proofs::Facts::Burst::reached_start, crate::proofs::Facts::Burst::reached_on))]
pub fn burst<E: Entries>(by: Rules<E>, cells: &mut [u8], start: BurstState) -> BurstState
    requires { BurstOk cells.old by.k by.len start }
    ensures { Reached (E.known by.entries by.k) by.proves by.stop by.k by.len start cells.old result cells.new }
{
    let mut at = start;
    let mut hints = step::unseen(by.len);
    loop {
        at = stretch(by, cells, at);
        if at.left == 0 {
            return at;
        }
        if at.state == by.stop {
            return at;
        }
        let head = at.head;
        let read = cells[head];
        let Some(entry) = by
            .entries
            .entry(by.k, step::row(at.state, by.k) + step::wide(read))
        else {
            return at;
        };
        let Some(found) = step::ordinary(cells, by.len, by.proves, at, read, entry, hints) else {
            return at;
        };
        hints = found;
        let Some(next) = step::went(at, by.len, entry) else {
            return at;
        };
        cells[head] = entry.write;
        at = next;
    }
}
