// The step at which a slot is due, the step to stop at, the slot to go back to, and the checks of a timeline's numbers.
// The contracts require numbers of which no sum wraps.
ghost use Rattle.std.specs.Prelude.{◌≡◌, ◌+◌, ◌-◌, ◌≤◌, min};
ghost use Rattle.notation.specs.Limits.{steps_most};
ghost use Rattle.machine.specs.Model.Check.{within};
ghost use Rattle.timeline_rule.specs.Model.Timeline.{times_ok, slot_for, one_more, first_check, later_check};
ghost use Rattle.timeline_rule.specs.Model.Kind.{spent};
ghost use Rattle.timeline_rule.specs.Model.Due.{due_of, is_due, stop_for, forward_to, target_to, Thinned, TimesFit, ThinOk, RecordOk};

use super::Times;
use notation::limits;
use outcome::{Outcome, Refusal};

// A step that no engine reaches: 2^62 + 1.
const UNREACHED: u64 = limits::STEPS + 1;

// An interval up to 2^53 is short: 512 times it is at most 2^62.
const SHORT: u64 = 9007199254740992;

pub(crate) fn within(low: u64, high: u64, x: u64) -> bool
    ensures { result ≡ within low high x }
{
    if x < low {
        return false;
    }
    x <= high
}

// A step, or 2^62 + 1 for any over 2^62: no engine reaches those.
fn capped(step: u64) -> u64
    ensures { result ≡ min step (steps_most + 1) }
{
    step.min(UNREACHED)
}

// The step at which the next slot is due, or 2^62 + 1 where that is over 2^62.
fn far_due(first: u64, count: u64, every: u64) -> u64
    requires first_le_steps_most { first ≤ steps_most }
    requires le_every { 1 ≤ every }
    ensures { result ≡ due_of first count every }
{
    let room = (limits::STEPS - first) / every;
    if count <= room {
        first + count * every
    } else {
        UNREACHED
    }
}

// The same, without a division for a count up to 512 (as refusal 14 requires) and a short interval.
fn due(first: u64, count: u64, every: u64) -> u64
    requires first_le_steps_most { first ≤ steps_most }
    requires le_every { 1 ≤ every }
    ensures { result ≡ due_of first count every }
{
    if 512 < count {
        return far_due(first, count, every);
    }
    if SHORT < every {
        return far_due(first, count, every);
    }
    capped(first + count * every)
}

// The target of a forward call from step p, or 2^62 + 1 where that is over 2^62.
pub fn forward_to(p: u64, n: u64) -> u64
    ensures { result ≡ forward_to p n }
{
    if limits::STEPS < p {
        return UNREACHED;
    }
    if limits::STEPS - p < n {
        return UNREACHED;
    }
    p + n
}

// The target of a back call.
pub fn back_to(p: u64, n: u64) -> u64
    ensures { result ≡ p - n }
{
    if p < n {
        return 0;
    }
    p - n
}

// The target of the call given by two numbers, made at step p: `which` is 0 for seek, 1 for forward, else back.
// The C interface gives the call as two numbers.
pub fn target_of(which: u64, p: u64, n: u64) -> u64
    ensures { result ≡ target_to which p n }
{
    if which == 0 {
        return n;
    }
    if which == 1 {
        return forward_to(p, n);
    }
    back_to(p, n)
}

// Whether a run is out of fuel.
pub fn is_spent(outcome: Outcome) -> bool
    ensures { result ≡ spent outcome }
{
    matches!(outcome, Outcome::OutOfFuel { .. })
}

// Refusals 14 and 15 of a new timeline, on a store of `slots` slots.
pub fn first_check(most: u64, every: u64, slots: usize) -> Result<(), Refusal>
    ensures { result ≡ first_check most every slots }
{
    if !super::new_ok(most, every) {
        return Err(Refusal::Settings);
    }
    if (slots as u64) <= most {
        return Err(Refusal::StoreSize);
    }
    Ok(())
}

impl Times {
    // Whether a later value, whose engine is at step p, passes the test of refusal 14.
    fn ok(self, p: u64) -> bool
        requires { p ≤ steps_most }
        ensures { result ≡ times_ok self p }
    {
        if !within(1, 512, self.most) {
            return false;
        }
        if !within(1, limits::INTERVAL, self.every) {
            return false;
        }
        if !within(1, self.most, self.count) {
            return false;
        }
        if p < self.first {
            return false;
        }
        let d = due(self.first, self.count, self.every);
        p <= d
    }

    // With more than `most` slots recorded, keeps those of even index and doubles the interval.
    fn thinned(self, store: &mut [u8], size: usize) -> Times
        requires { ThinOk self store.old size }
        ensures { Thinned self result size store.old store.new }
    {
        let n = self.count;
        if n <= self.most {
            return self;
        }
        let k = (n - 1) / 2;
        store_bytes::inner::thin(store, size, k as usize);
        Times {
            most: self.most,
            first: self.first,
            count: (n + 1) / 2,
            every: 2 * self.every,
        }
    }
}

// Refusals 14, 15 and 13 of a call, on an engine at step p and a store of `slots` slots.
pub fn later_check(t: Times, p: u64, slots: usize, target: u64) -> Result<(), Refusal>
    requires { p ≤ steps_most }
    ensures { result ≡ later_check t p slots target }
{
    if !t.ok(p) {
        return Err(Refusal::Settings);
    }
    if (slots as u64) <= t.most {
        return Err(Refusal::StoreSize);
    }
    if limits::STEPS < target {
        return Err(Refusal::StepLimit);
    }
    Ok(())
}

pub fn is_due(t: Times, p: u64) -> bool
    requires times_fit { TimesFit t }
    requires p_le_steps_most { p ≤ steps_most }
    ensures { result ≡ is_due t p }
{
    let d = due(t.first, t.count, t.every);
    p == d
}

// The step at which the next advance stops: the target, or that of the next slot where it comes first.
pub fn stop(t: Times, target: u64, p: u64) -> u64
    requires times_fit { TimesFit t }
    requires target_le_steps_most { target ≤ steps_most }
    ensures { result ≡ stop_for target t p }
{
    let d = due(t.first, t.count, t.every);
    if target < d {
        return target.max(p);
    }
    d.max(p)
}

// The slot to go back to.
pub fn slot_for(t: Times, target: u64) -> u64
    requires first_le_target { t.first ≤ target }
    requires le_every { 1 ≤ t.every }
    requires le_count { 1 ≤ t.count }
    ensures { result ≡ slot_for target t }
{
    ((target - t.first) / t.every).min(t.count - 1)
}

// Counts one slot more, after a save into the next slot, and thins if there are more than `most`.
pub fn recorded(t: Times, store: &mut [u8], size: usize) -> Times
    requires { RecordOk t store.old size }
    ensures { Thinned (one_more t) result size store.old store.new }
{
    let more = Times {
        most: t.most,
        first: t.first,
        count: t.count + 1,
        every: t.every,
    };
    more.thinned(store, size)
}
