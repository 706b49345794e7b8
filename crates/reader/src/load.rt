ghost use Rattle.std.specs.Prelude.{length};
ghost use Rattle.reader.specs.Loading.{Read, Loaded};

use format::reading::read_task;
use tables::fault::Fault;
use tables::records::{Entry, Operator, Variable};
use task::task::Task;

// Reads a task text into the records and answers its task. A refusal leaves the records zero.
pub fn read<'a>(
    text: &'a [u8],
    variables: &'a mut [Variable],
    operators: &'a mut [Operator],
    entries: &'a mut [Entry],
) -> Result<Task<'a>, Fault>
    ensures { Read text.now (length variables.old) (length operators.old) (length entries.old) result }
{
    let counts = read_task(text, variables, operators, entries)?;
    Task::new(text, variables, operators, entries, counts)
}

// Reads a task text into the records and puts its task in the place of `task`. A refusal leaves that task as it was,
// and the records zero.
pub fn load<'a>(
    task: &mut Task<'a>,
    text: &'a [u8],
    variables: &'a mut [Variable],
    operators: &'a mut [Operator],
    entries: &'a mut [Entry],
) -> Result<(), Fault>
    ensures { Loaded text.now (length variables.old) (length operators.old) (length entries.old) result task.old task.new }
{
    *task = read(text, variables, operators, entries)?;
    Ok(())
}
