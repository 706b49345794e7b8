// Reads a task text from standard input, walks operators, named by the arguments, from its initial state, and prints every
// state on the way.
#![tactic(auto)]

use console::read_text;
use reader::load::read;
use std::io::Write;
use std::{env, io};
use tables::records::{Entry, Operator, Variable};
use task::task::Task;

// Writes the state's values by name.
fn write_state<W: Write>(out: &mut W, task: &Task<'_>, row: &[u8]) -> io::Result<()> {
    for (variable, value) in row.iter().enumerate() {
        out.write_all(b" ")?;
        out.write_all(task.variable_name(variable).unwrap_or(&[]))?;
        out.write_all(b"=")?;
        out.write_all(task.value_name(variable, *value).unwrap_or(&[]))?;
    }
    Ok(())
}

// Walks one operator more, and writes its line: its name, the state that it leads to and the cost so far. Answers the
// cost so far, or none where the operator does not apply.
fn write_step<W: Write>(
    out: &mut W,
    task: &Task<'_>,
    operator: usize,
    row: &mut [u8],
    cost: u32,
) -> io::Result<Option<u32>> {
    let walked = task.walk(&[operator], row);
    if walked.steps == 0 {
        return Ok(None);
    }
    let total = cost.saturating_add(walked.cost);
    out.write_all(task.operator_name(operator).unwrap_or(&[]))?;
    out.write_all(b":")?;
    write_state(out, task, row)?;
    writeln!(out, ", cost {total}")?;
    Ok(Some(total))
}

// Walks the operators that the words name, a line each, and says where the walk ended.
fn write_walk<W: Write>(
    out: &mut W,
    task: &Task<'_>,
    words: &[String],
    row: &mut [u8],
) -> io::Result<()> {
    let mut cost = 0;
    out.write_all(b"start:")?;
    write_state(out, task, row)?;
    out.write_all(b"\n")?;
    for word in words {
        let Some(operator) = task.operator_named(word.as_bytes()) else {
            return writeln!(out, "unknown operator: {word}");
        };
        let Some(total) = write_step(out, task, operator, row, cost)? else {
            return writeln!(out, "does not apply: {word}");
        };
        cost = total;
    }
    let reached = if task.is_goal_state(row) {
        "goal reached"
    } else {
        "goal not reached"
    };
    writeln!(out, "{reached}, total {cost}")
}

fn main(rt: HostRuntime) -> anyhow::Result<()> {
    let heap = rt.alloc();
    let text = read_text(&mut rt.stdin(), heap)?;
    let words: Vec<String> = env::args(&rt)?.skip(1).collect(heap)?;
    let mut variables = vec![in heap; Variable::ZERO; 32]?;
    let mut operators = vec![in heap; Operator::ZERO; 256]?;
    let mut entries = vec![in heap; Entry::ZERO; 4096]?;
    let mut out = rt.stdout();
    let task = match read(&text, &mut variables, &mut operators, &mut entries) {
        Ok(task) => task,
        Err(fault) => {
            writeln!(out, "{fault}")?;
            return Ok(());
        }
    };
    let mut row = vec![in heap; 0u8; task.variable_count()]?;
    task.initial_into(&mut row);
    write_walk(&mut out, &task, words.as_slice(), &mut row)?;
    Ok(())
}
