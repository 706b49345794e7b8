// A task text turned into a task.
#![tactic(auto)]

pub mod load;
