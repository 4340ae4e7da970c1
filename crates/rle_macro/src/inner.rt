// Functions that require that the live runs have places and that counts are in bounds.
pub mod macro_step;
pub mod questions;
pub mod word;
