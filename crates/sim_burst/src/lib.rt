// Bursts: the ordinary steps of a machine with one tape, over its cells and a few numbers. A burst decides nothing: it
// stops before the first step that needs a decision, and leaves that step to its caller.
#![tactic(auto)]

pub mod inner;
