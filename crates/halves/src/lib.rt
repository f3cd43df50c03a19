// "Four bits a base": the half bytes of packed letters, tests of each, and the number of letters.
#![tactic(auto)]

pub mod check;
pub mod half;
pub mod size;
