// One edit of a reference, answered whole: the reference is checked and its protein R is read, what the edit does is decided, and only then
// the altered transcript, R and the altered protein A are written to the buffers lent.
#![tactic(auto)]

mod alone;
mod answer;
mod carry;

pub use alone::{Transcribed, build_transcript};
pub use answer::{Ready, answer_known, build_altseq, decide_in};
pub use carry::carry_out;
