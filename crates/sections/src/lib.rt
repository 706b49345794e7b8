// The sections of a task text, each read into lent records: variables and their initial values, groups of entries, operators.
#![tactic(auto)]

pub mod entries;
pub mod operators;
pub mod room;
pub mod seen;
pub mod variables;
