// The cells of a tape as a lent slice.
#![tactic(auto)]

pub mod inner;
