// One side of a run-length tape: a stack of runs in two lent slices, symbols and lengths, top nearest the head.
#![tactic(auto)]

pub mod inner;
