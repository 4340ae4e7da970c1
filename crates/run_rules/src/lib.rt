// The stop rule and the answers of a run, for both engines; and, in specs, a run over any kind of configuration.
#![tactic(auto)]

use outcome::{Outcome, Refusal};
use symbol::State;

pub mod inner;
pub mod questions;
