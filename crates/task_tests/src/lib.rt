#![tactic(auto)]

// Tests of crate `task` on the worked example and on damaged records.
#[cfg(test)]
mod making;
#[cfg(test)]
mod moves;
#[cfg(test)]
mod sofa;
