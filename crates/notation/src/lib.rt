// What several crates compute with: the limits of document 01 by name.
#![tactic(auto)]

pub mod limits;
