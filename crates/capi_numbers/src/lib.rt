// Answers, entries, packed words and runs as numbers, for the functions with C linkage.
#![tactic(auto)]

pub mod answers;
pub mod parts;
mod values;
