// Demand 3: one theorem over the definitions that the five contracts name. No code.
#![tactic(auto)]
