// The parts of the second demand: each engine is the table machine, and answers whatever document 01 accepts; definitions and theorems, no code.

#![tactic(auto)]
