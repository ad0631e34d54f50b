// Definitions and theorems only: what a call of a file's routine does, from what the routine promises (demand 3).
#![tactic(auto)]
