// The panel profile: a stricter mode, whose answers are those of the full module.
#![tactic(auto)]

mod answer;

pub use answer::build_panel;
