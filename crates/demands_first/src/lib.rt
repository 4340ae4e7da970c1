// The parts of the first demand: each operation's refusals in document 01's order, and lack of space; definitions and theorems, no code.

#![tactic(auto)]
