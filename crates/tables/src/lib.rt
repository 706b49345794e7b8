// What tasks are made of: the fault table, the records, lines of a text, and the rules that records of a task keep.
#![tactic(auto)]

pub mod cause;
pub mod fault;
pub mod line;
pub mod records;
pub mod rules;
