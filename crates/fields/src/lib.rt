// Stored fields, read and written: a one-byte tag, a two-byte length (high byte first) and the content. Nothing here knows a tag, what fits one, or a refusal: that
// is a form's own, as `stored` has the reference's. The laws of proofs/ are over any form.
#![tactic(auto)]

pub mod lookup;
pub mod reader;
pub mod writer;

pub use lookup::content_of;
pub use reader::{Field, Fields, bytes_at, next_field};
pub use writer::{write_field, write_head};
