// The cells of a tape by position.
#![tactic(auto)]

pub mod inner;
