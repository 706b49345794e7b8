// Lower bounds on the cost of every plan from a state, of whichever kind: the two calls, what they owe, and the blind kind.
#![tactic(auto)]

pub mod blind;
pub mod bound;
pub mod estimator;
pub mod fault;
pub mod row;
