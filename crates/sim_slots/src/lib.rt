// The plain engine as a timeline's engine: an advance, and its slots.
#![tactic(auto)]

pub mod inner;
