// The moves of an accepted call: on from the present step, back to a slot and on from there, or none.
ghost use Rattle.std.specs.Prelude.{◌≡◌};
ghost use Rattle.timeline_rule.specs.Model.Timeline.{go_back, go_to};
ghost use Rattle.timeline_rule.specs.Model.Kind.{ops_of};
ghost use Rattle.timeline_rule.specs.Invariants.{timeline_of, GoOk, Fits};
ghost use Rattle.timeline_engine.specs.Engine.{replied};

use super::inner::Engine;
use super::turns::advance_to;
use machine::Machine;
use outcome::{Outcome, Refusal};
use timeline_rule::{Times, inner as sums};

// Restores the engine of the slot to go back to, and goes on from there. Changes nothing where the slot holds no fitting
// engine of its step.
fn go_back<E: Engine>(
    engine: &mut E,
    times: &mut Times,
    m: Machine,
    table: &[u8],
    store: &mut [u8],
    size: usize,
    target: u64,
) -> Result<Outcome, Refusal>
    requires { GoOk E.kind size (Fits E.kind m table.now size) target (timeline_of E.kind (E.state engine.old) store.old times.old) }
    ensures went { replied E.kind result (timeline_of E.kind (E.state engine.new) store.new times.new) ≡ go_back (ops_of E.kind m table.now size) target (timeline_of E.kind (E.state engine.old) store.old times.old) }
    ensures same_buffers { E.names engine.new ≡ E.names engine.old }
{
    let i = sums::slot_for(*times, target);
    let at = (i as usize) * size;
    let end = at + size;
    if !engine.restore(m, &store[at..end], times.first + i * times.every) {
        return Err(Refusal::Slot);
    }
    Ok(advance_to(engine, times, m, table, store, size, target))
}

pub(crate) fn go_to<E: Engine>(
    engine: &mut E,
    times: &mut Times,
    m: Machine,
    table: &[u8],
    store: &mut [u8],
    size: usize,
    target: u64,
) -> Result<Outcome, Refusal>
    requires { GoOk E.kind size (Fits E.kind m table.now size) target (timeline_of E.kind (E.state engine.old) store.old times.old) }
    ensures went { replied E.kind result (timeline_of E.kind (E.state engine.new) store.new times.new) ≡ go_to (ops_of E.kind m table.now size) target (timeline_of E.kind (E.state engine.old) store.old times.old) }
    ensures same_buffers { E.names engine.new ≡ E.names engine.old }
{
    let here = engine.steps();
    if target == here {
        return Ok(engine.advance(m, table, 0));
    }
    if target < here {
        return go_back(engine, times, m, table, store, size, target);
    }
    Ok(advance_to(engine, times, m, table, store, size, target))
}
