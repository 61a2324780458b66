// How far the day's uptake T moves when one medium's q rises. It has laws, and no code.
#![tactic(auto)]
