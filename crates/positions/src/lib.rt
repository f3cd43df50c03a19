// Positions of an edit, judged by the bounds of a checked reference: refusals 7 to 10.
#![tactic(auto)]

pub mod refusals;
