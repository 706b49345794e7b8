// Planning tasks over lent records: their rules, their names, states, and what operators do.
#![tactic(auto)]

pub mod apply;
pub mod make;
pub mod names;
pub mod state;
pub mod task;
pub mod walk;
