// A timeline over any engine: the check of a call, and the moves of an accepted one.
#![tactic(auto)]

ghost use Rattle.std.specs.Prelude.{◌≡◌};
ghost use Rattle.timeline_rule.specs.declared.Call.TheVariants.{Seek};
ghost use Rattle.timeline_rule.specs.Model.Timeline.{call_check};
ghost use Rattle.timeline_rule.specs.Model.Kind.{ops_for, call_on};
ghost use Rattle.timeline_rule.specs.Invariants.{timeline_of};
ghost use Rattle.timeline_engine.specs.Engine.{sized, replied};

use inner::Engine;
use machine::Machine;
use outcome::{Outcome, Refusal};
use timeline_rule::{Times, inner as sums};

pub mod inner;
mod moves;
mod turns;

// The refusals of a call: the engine's, then 14, 15 and 13. The answer is the size of a slot.
fn call_check<E: Engine>(
    engine: &E,
    times: Times,
    m: Machine,
    table: &[u8],
    store: &[u8],
    target: u64,
) -> Result<usize, Refusal>
    ensures { result ≡ sized (E.kind.slot_size m (E.state engine.now)) (call_check (ops_for E.kind m table.now (E.state engine.now)) (timeline_of E.kind (E.state engine.now) store.now times) target) }
{
    let size = engine.admitted(m, table)?;
    sums::later_check(times, engine.steps(), store.len() / size, target)?;
    Ok(size)
}

// Moves to the step `target`, or to an earlier one where the machine halts or is full. A target below the start counts
// as the start. The engine, the numbers and the store are no struct: with one, the proof did not close, since nothing is
// known afterwards of a buffer whose `&mut` lies in a struct inside another.
pub fn seek<E: Engine>(
    engine: &mut E,
    times: &mut Times,
    m: Machine,
    table: &[u8],
    store: &mut [u8],
    target: u64,
) -> Result<Outcome, Refusal>
    ensures went { replied E.kind result (timeline_of E.kind (E.state engine.new) store.new times.new) ≡ call_on E.kind m table.now (timeline_of E.kind (E.state engine.old) store.old times.old) (Seek target) }
    ensures same_buffers { E.names engine.new ≡ E.names engine.old }
{
    let size = call_check(engine, *times, m, table, store, target)?;
    let goal = target.max(times.first);
    moves::go_to(engine, times, m, table, store, size, goal)
}
