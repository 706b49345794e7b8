// Layers over two estimators of any kind, layers too: the maximum and the partition of what they answer.
#![tactic(auto)]

mod below;
pub mod layer;
pub mod maximum;
pub mod partition;
pub mod price_table;
pub mod rule;
