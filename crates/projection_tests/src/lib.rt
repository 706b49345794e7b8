#![tactic(auto)]

// Tests of the projection on the worked example, on small tasks of one feature each, and at the limits.
#[cfg(test)]
mod example;
#[cfg(test)]
mod features;
#[cfg(test)]
mod limits;
#[cfg(test)]
mod records;
