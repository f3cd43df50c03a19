// Byte strings of letters and residues, without a reference: the complement, and the trims that it hands on, of document 01's "Letters and codons".
#![tactic(auto)]

mod complement;

pub use complement::{all_letters, revcomp, write_revcomp};
pub use prefixes::{common_prefix_len, equals};
pub use suffixes::common_suffix_len;
