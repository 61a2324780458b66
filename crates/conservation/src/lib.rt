// Demand 3, the laws of the calls, and the bench figures: definitions and proofs alone, no function.
#![tactic(auto)]
