// A tape of runs: two stacks of runs around the cell under the head, in lent places. Parts of the run-length engine's
// operations that do not need the engine's value.
#![tactic(auto)]

pub mod inner;
