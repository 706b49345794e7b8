// The lines of a task text and the numbers in them, taken one after another by a cursor.
#![tactic(auto)]

pub mod cursor;
pub mod line;
pub mod number;
mod steps;
