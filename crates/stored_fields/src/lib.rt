// The fields of a stored reference: refusals 20 to 23, or where its letters and its exceptions stand; and exceptions in the stored form, as calls
// take them.
#![tactic(auto)]

mod exceptions;
pub mod field_places;
mod order;

pub use exceptions::exceptions_in;
pub use field_places::{StoredAt, find_stored};
