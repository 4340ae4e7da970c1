// The rows of a listing: makes each call on the plain engine's timeline, and prints its row.
#![tactic(auto)]

pub mod inner;
mod printing;
