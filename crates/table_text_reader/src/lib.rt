// Reading a line of the one-line form: what the reader answers and what that means, definitions and theorems, no code.
#![tactic(auto)]

use machine::Machine;
use outcome::Refusal;
