// Definitions and laws only (specs/, proofs/): tests over lists, and laws of tests.
#![tactic(auto)]
