// Writing a table as a line of the one-line form: what the writer answers and what that means, definitions and theorems, no code.
#![tactic(auto)]

use outcome::Refusal;
