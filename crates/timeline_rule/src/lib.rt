// A timeline's own numbers, for an engine of either kind: its settings, the number of slots recorded, and the step at
// which the next slot is due; and the calls on it. The specs define the timeline over any engine.
#![tactic(auto)]

ghost use Rattle.std.specs.Prelude.{◌≡◌};
ghost use Rattle.timeline_rule.specs.Model.Timeline.{new_ok, call_for};

pub mod inner;

#[derive(Clone, Copy)]
pub struct Times {
    // The largest number of slots kept; there is one more before thinning.
    pub most: u64,
    // The step at which the timeline starts: the step of slot 0.
    pub first: u64,
    // The number of slots recorded.
    pub count: u64,
    // The interval: the steps from one slot to the next.
    pub every: u64,
}

// A call on a timeline, with its number: a step to seek, or a number of steps forward or back.
#[derive(Clone, Copy, PartialEq, Eq)]
pub enum Call {
    Seek(u64),
    Forward(u64),
    Back(u64),
}

impl Call {
    // The call as two numbers, as it crosses the C boundary: 0 for seek, 1 for forward, 2 for back; and its number.
    pub fn numbers(self) -> (u64, u64)
        ensures { call_for result.0 result.1 ≡ self }
    {
        match self {
            Call::Seek(target) => (0, target),
            Call::Forward(steps) => (1, steps),
            Call::Back(steps) => (2, steps),
        }
    }
}

// Whether the settings of a new timeline pass the test of refusal 14.
pub fn new_ok(most: u64, every: u64) -> bool
    ensures { result ≡ new_ok most every }
{
    if !inner::within(1, 512, most) {
        return false;
    }
    inner::within(1, 4294967296, every)
}
