// The loop that goes forward: a turn records the engine where a slot is due, and advances.
ghost use Rattle.std.specs.Prelude.{◌≡◌};
ghost use Rattle.timeline_rule.specs.Model.Timeline.{record_due};
ghost use Rattle.timeline_rule.specs.Model.Kind.{ops_of};
ghost use Rattle.timeline_rule.specs.Invariants.{timeline_of, RecOk, LoopOk, way_of, Fits};

use super::inner::Engine;
use machine::Machine;
use outcome::Outcome;
use timeline_rule::{Times, inner as sums};

// Records the engine if a slot is due.
fn record_due<E: Engine>(
    engine: &E,
    times: Times,
    m: Machine,
    table: &[u8],
    store: &mut [u8],
    size: usize,
) -> Times
    requires { RecOk E.kind size (Fits E.kind m table.now size) (timeline_of E.kind (E.state engine.now) store.old times) }
    ensures { timeline_of E.kind (E.state engine.now) store.new result ≡ record_due (ops_of E.kind m table.now size) (timeline_of E.kind (E.state engine.now) store.old times) }
{
    if !sums::is_due(times, engine.steps()) {
        return times;
    }
    let at = (times.count as usize) * size;
    let end = at + size;
    engine.save(m, &mut store[at..end]);
    sums::recorded(times, store, size)
}

// Goes on to the target, slot by slot. The loop ends there, or where the engine makes no step: halted or full.
pub(crate) fn advance_to<E: Engine>(
    engine: &mut E,
    times: &mut Times,
    m: Machine,
    table: &[u8],
    store: &mut [u8],
    size: usize,
    target: u64,
) -> Outcome
    requires { LoopOk E.kind size (Fits E.kind m table.now size) target (timeline_of E.kind (E.state engine.old) store.old times.old) }
    ensures went { (result, timeline_of E.kind (E.state engine.new) store.new times.new) ≡ way_of E.kind m table.now size target (timeline_of E.kind (E.state engine.old) store.old times.old) }
    ensures same_buffers { E.names engine.new ≡ E.names engine.old }
{
    loop {
        *times = record_due(engine, *times, m, table, store, size);
        let before = engine.steps();
        let stop = sums::stop(*times, target, before);
        let outcome = engine.advance(m, table, stop - before);
        let reached = engine.steps();
        if target <= reached || reached == before {
            return outcome;
        }
    }
}
