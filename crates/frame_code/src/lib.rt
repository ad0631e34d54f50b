// Definitions and theorems of the two frames; the functions stand in `frames`.
#![tactic(auto)]
