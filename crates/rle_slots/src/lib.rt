// The run-length engine as a timeline's engine: its advance, and its slots.
#![tactic(auto)]

pub mod inner;
