// References kept in stored fields: where such a reference stands in the caller's bytes, or its one refusal; and an edit of it, answered.
#![tactic(auto)]

mod answer;
mod read;

pub use answer::build_altseq_stored;
pub use read::{is_joined, read_stored};
