// A site file that is converted between its two editions answers the same: definitions and proofs alone, no function.
#![tactic(auto)]
