// The steps of a month: what each absorbs, and the state that they leave.
#![tactic(auto)]

pub mod days; // days.rt: a day's steps, and a month's days
pub mod share; // share.rt: what each step of a day absorbs
