// What an edit of a checked reference does, decided and written nowhere: 7 to 10, Unknown, or which bases give way to which, the altered
// length, the frameshift flag and the number of a silent record.
#![tactic(auto)]

pub mod decision;
pub mod plans;

pub use cuts::no_exceptions;
