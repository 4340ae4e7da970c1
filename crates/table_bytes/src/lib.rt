// The meaning of a table's bytes, without any type of a machine.
#![tactic(auto, unfolding(notation::specs::Choice::both, notation::specs::Choice::pick))]

pub mod inner;
