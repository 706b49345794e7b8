// The search's lent memory: node records, state bytes, their index, and the open list.
#![tactic(auto)]

pub mod full;
pub mod index;
pub mod lines;
pub mod memory;
pub mod node;
pub mod opening;
pub mod root;
pub mod store;
pub mod successors;
pub mod way;
