// From a task text to a cheapest plan: the program's patterns, estimator and memory, and the search to its end.
#![tactic(auto)]

pub mod patterns;
pub mod plan;
pub mod solve;
mod workspace;
