// The forms of the text program's lines: each parser answers what it read and where the rest of the line begins, or None where the line isn't
// in the form.
#![tactic(auto)]

mod line;
mod position;

pub use line::{EditLine, ReferenceLine, parse_edit, parse_reference};
pub use position::{signed_by, signs_of};
