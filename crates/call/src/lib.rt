// Definitions and theorems only: what a call of an accepted routine does (demand 3).
#![tactic(auto)]
