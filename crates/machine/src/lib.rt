// Definitions and laws only (specs/, proofs/): the machine, its steps, and what code does on it.
#![tactic(auto)]
