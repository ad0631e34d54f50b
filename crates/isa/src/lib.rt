// Definitions and laws only (specs/): the instructions, their encodings and the way back.
#![tactic(auto)]
