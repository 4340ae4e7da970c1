// Bytes of a timeline's slots: little-endian numbers, copies, and the moves of whole slots in one store.
#![tactic(auto)]

pub mod inner;
