// The task text read into lent records, up to its first fault.
#![tactic(auto)]

pub mod reading;
