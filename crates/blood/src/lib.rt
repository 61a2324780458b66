// Birth and blood: the amounts at birth, and the blood figure.
#![tactic(auto)]

pub mod birth; // birth.rt: the amounts at birth (B-7)
pub mod figure; // figure.rt: the blood figure (B-9g, B-10)
