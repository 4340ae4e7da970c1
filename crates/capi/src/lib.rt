// The engines, their timelines, the encoder and the one-line form as functions with C linkage, on numbers and slices. Each returns 0, or
// the number of its refusal. Kinds, moves and answers are numbers here, and engines and buffers are parameters, since C calls
// these functions.
#![tactic(auto)]

pub mod chain;
pub mod chain_questions;
pub mod chain_timelines;
pub mod encoder;
pub mod lines;
pub mod plain;
pub mod questions;
pub mod sides;
pub mod tables;
pub mod timelines;
pub mod words;
