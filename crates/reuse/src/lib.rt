// "Translate only changed codons": the altered protein with residues of R reused before and behind an edit, of a reference without exceptions.
#![tactic(auto)]

mod pieces;
mod writing;

pub use pieces::{Pieces, pieces_of};
pub use writing::{Reused, ends_in_stop, write_reusing};
