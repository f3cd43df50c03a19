// The settings of a bench, kept in stored fields: read by a reader that knows the versions up to one, and written in either version.
#![tactic(auto)]

mod read;
mod write;

pub use read::read_settings;
pub use write::write_settings;
