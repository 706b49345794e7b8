#![tactic(auto)]

pub mod advance;
pub mod answer;
pub mod data;
pub mod inner;
pub mod open;
pub mod replay;
pub mod search;
pub mod start;
pub mod step;
pub mod write;
