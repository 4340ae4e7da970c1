// The calls on a timeline over a fresh engine.
ghost use Rattle.std.specs.Prelude.{◌≤◌, length, take};
ghost use Rattle.sim.specs.Model.Engine.{conf};
ghost use Rattle.listing_text.specs.Model.{Wrote};
ghost use Rattle.listing.specs.Output.{output_most, lent_of, answer_on, answer_with, blank_cells, blank_store};

use machine::Machine;
use sim::Simulator;
use sim_timeline::Timeline;
use timeline_rule::Call;

// Makes a timeline, and prints the names line and the rows.
fn on_timeline(
    out: &mut [u8],
    sim: Simulator,
    m: Machine,
    table: &[u8],
    c0: &mut [u8],
    c1: &mut [u8],
    c2: &mut [u8],
    store: &mut [u8],
    calls: &[Call],
    n: usize,
) -> usize
    requires { (output_most ≤ length out.old) × (64 ≤ length calls.now) × (n ≤ 64) }
    ensures { Wrote out.old 0 (answer_on m table.now store.old (take n calls.now) (conf sim c0.old c1.old c2.old)) out.new result }
{
    let begun = Timeline::new(sim, m, table, c0, c1, c2, store, 8, 16);
    match begun {
        Err(why) => listing_rows::inner::refused(out, 0, why.number() as u64),
        Ok(timeline) => {
            let at = listing_text::inner::put(out, 0, b"answer steps state head low high score\n");
            listing_rows::inner::rows(out, at, timeline, m, table, c0, c1, c2, store, calls, n)
        }
    }
}

// Makes the fresh engine, and prints the answer of a timeline over it.
fn on_engine(
    out: &mut [u8],
    m: Machine,
    table: &[u8],
    word: &[u8],
    c0: &mut [u8],
    c1: &mut [u8],
    c2: &mut [u8],
    store: &mut [u8],
    calls: &[Call],
    n: usize,
) -> usize
    requires { (output_most ≤ length out.old) × (64 ≤ length calls.now) × (n ≤ 64) }
    ensures { Wrote out.old 0 (answer_with m table.now word.now (lent_of c0.old c1.old c2.old) store.old (take n calls.now)) out.new result }
{
    let fresh = Simulator::new(m, table, word, c0, c1, c2);
    match fresh {
        Err(why) => listing_rows::inner::refused(out, 0, why.number() as u64),
        Ok(sim) => on_timeline(out, sim, m, table, c0, c1, c2, store, calls, n),
    }
}

// Lends 4,096 cells for the one tape, and a store of 9 slots of 4,224 bytes.
pub(crate) fn in_buffers(
    out: &mut [u8],
    m: Machine,
    table: &[u8],
    word: &[u8],
    calls: &[Call],
    n: usize,
) -> usize
    requires { (output_most ≤ length out.old) × (64 ≤ length calls.now) × (n ≤ 64) }
    ensures { Wrote out.old 0 (answer_with m table.now word.now blank_cells blank_store (take n calls.now)) out.new result }
{
    let mut c0: [u8; 4096] = [0; 4096];
    let mut c1: [u8; 0] = [0; 0];
    let mut c2: [u8; 0] = [0; 0];
    let mut store: [u8; 38016] = [0; 38016];
    on_engine(
        out, m, table, word, &mut c0, &mut c1, &mut c2, &mut store, calls, n,
    )
}
