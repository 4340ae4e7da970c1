// What reading and writing the one-line form mean: definitions and theorems, no code.

#![tactic(auto)]
