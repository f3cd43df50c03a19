// "Four bits a base": letters two to a byte, each the sum of its bases, the first in the high half; and what reads a reference's letters, in either form.
#![tactic(auto)]

mod compare;
mod forms;
mod reading;
mod stops;
mod turned;
mod unpack;

pub use forms::{
    all_bases_by, all_letters_by, copy_letters, first_stop_by, letter_at, prefix_by, same_by,
    set_at, suffix_by, turn_letters, write_residues,
};
pub use halves::size::size_of;
