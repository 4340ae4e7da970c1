// Which tables have a line of the one-line form: the test, what it means, and theorems that these agree; no code.

#![tactic(auto)]
