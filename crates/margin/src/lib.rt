// The laws of the exact solution and of a step, its margin among them: definitions and proofs alone, no function.
#![tactic(auto)]
