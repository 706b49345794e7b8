// Reads a task text from standard input, and prints a cheapest plan, that there is none, that 2,048 states do not
// suffice, or what is wrong with the text.
#![tactic(auto)]

use console::read_text;
use planner::plan::{PlanError, plan};
use planner::solve::Solution;
use std::io::Write;

// The longest plan text that is printed.
const LONGEST: usize = 65536;

fn main(rt: HostRuntime) -> anyhow::Result<()> {
    let heap = rt.alloc();
    let text = read_text(&mut rt.stdin(), heap)?;
    let mut buffer = vec![in heap; 0u8; LONGEST]?;
    let mut out = rt.stdout();
    match plan(heap, &text, &mut buffer) {
        Ok(Solution::Plan(length)) => out.write_all(&buffer[..length])?,
        Ok(Solution::NoPlan) => out.write_all(b"no plan\n")?,
        Ok(Solution::Full) => out.write_all(b"full\n")?,
        Err(PlanError::Memory(error)) => return Err(error.into()),
        Err(error) => writeln!(out, "{error}")?,
    }
    Ok(())
}
