// A task cut down to a pattern: its abstract states and their ranks, its abstract operators and its abstract goal.
#![tactic(auto)]

pub mod abstract_task;
mod cut;
mod fill;
pub mod part;
pub mod pattern;
pub mod place;
pub mod steps;
