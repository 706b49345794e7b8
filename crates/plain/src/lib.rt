// The plain search: what each call of the search does, and the law of every list of calls. The specs are the manual.
#![tactic(auto)]

pub mod fault;
