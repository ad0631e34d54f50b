// What the orders mean: definitions only.
#![tactic(auto)]
