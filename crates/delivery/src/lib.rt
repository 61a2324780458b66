// The delivery, one theorem: every law that is promised, demand by demand. No function.
#![tactic(auto)]
