// The entry points for a host program written in C; include/garumbott.h says of each what a host needs to know. They demand nothing but memory
// that is there and doesn't overlap: every other fault is a refusal, and a refusal changes no byte.
#![tactic(auto)]

pub mod bench;
pub mod checking;
pub mod comparing;
pub mod pairing;
pub mod panels;
pub mod plain;
pub mod reading;
pub mod text;
pub mod variant;
pub mod writing;
