// Translation of a byte string: one residue a whole codon, exceptions applied, then one X for a rest.
#![tactic(auto)]

mod bases;
mod reading;
mod translate;

pub use bases::all_bases;
pub use translate::{translate_cds, translate_cds_with_exceptions, write_translated};
