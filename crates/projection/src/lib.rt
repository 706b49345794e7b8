// The projection estimator: exact distances in an abstraction, and the least prices that keep them.
#![tactic(auto)]

mod compute;
mod dijkstra;
mod distances;
mod entry;
pub mod projection;
mod rank;
mod relax;
mod saturate;
