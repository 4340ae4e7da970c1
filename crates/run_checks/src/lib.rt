// What the plain engine checks before an operation begins and before each step of a run, over tapes and their cells.
#![tactic(auto)]

pub mod inner;
