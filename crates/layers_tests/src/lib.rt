// Piles of layers, with a leaf that refuses on demand.
#![tactic(auto)]

pub mod leaf;
pub mod pile;
#[cfg(test)]
mod tests;
