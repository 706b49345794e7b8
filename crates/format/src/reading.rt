ghost use Rattle.std.specs.Prelude.{◌≡◌, ℕ, ◌+◌, ◌-◌, ◌<◌, ◌≤◌, [], ◌++◌, length, take, replicate, IfOk};
ghost use Rattle.lines.specs.Views.{place_of, answered, answered_by};
ghost use Rattle.sections.specs.Views.{entries_in, SameLender};
ghost use Rattle.format.specs.Whole.{heading_of, state_of, goal_of, body_of, whole_of, task_of, room_of, TaskRead};
ghost use Rattle.format.specs.Views.{answered_goal, answered_body, answered_whole, held_by};

use lines::cursor::Cursor;
use sections::entries::{Entries, Fact};
use sections::operators::operator_list;
use sections::variables::{initial_values, variable_list};
use tables::cause::Cause;
use tables::fault::Fault;
use tables::records::{Counts, Entry, Operator, Variable};

// How many records are used where a text is refused.
const NONE: Counts = Counts {
    variables: 0,
    goals: 0,
    operators: 0,
    entries: 0,
};

// The lines before the number of variables.
fn heading(cursor: &mut Cursor) -> Result<(), Fault>
    ensures { heading_of (place_of cursor.old) ≡ answered result cursor.new }
{
    cursor.word(b"begin_version")?;
    cursor.word(b"3")?;
    cursor.word(b"end_version")?;
    cursor.word(b"begin_metric")?;
    cursor.word(b"1")?;
    cursor.word(b"end_metric")
}

// The number of mutex groups and the initial state.
fn state(cursor: &mut Cursor, variables: &mut [Variable]) -> Result<(), Fault>
    ensures { state_of variables.old (place_of cursor.old) ≡ answered_by result variables.new cursor.new }
{
    cursor.word(b"0")?;
    cursor.word(b"begin_state")?;
    initial_values(cursor, variables)?;
    cursor.word(b"end_state")?;
    Ok(())
}

// The goal: answers how many facts it has.
fn goal(cursor: &mut Cursor, entries: &mut Entries) -> Result<usize, Fault>
    requires { entries.old.used ≡ 0 }
    ensures reads { goal_of entries.old.variables.now (length entries.old.records.now) (place_of cursor.old) ≡ answered_goal result (entries_in entries.new) cursor.new }
    ensures same { SameLender entries.old entries.new }
    ensures used { IfOk result (λ n. entries.new.used ≡ n) }
{
    cursor.word(b"begin_goal")?;
    let count = cursor.number(0..entries.variables.len() + 1)?;
    entries.start_group();
    entries.group::<Fact>(cursor, count)?;
    cursor.word(b"end_goal")?;
    Ok(count)
}

// The text after the variables; answers how many of the first records are used. The three rows go down one by one, for
// each call lends a shorter part of one of them, so that a struct of the three would be built anew at each.
fn body(
    cursor: &mut Cursor,
    variables: &mut [Variable],
    operators: &mut [Operator],
    entries: &mut [Entry],
) -> Result<Counts, Fault>
    requires { length variables.old ≤ 32 }
    ensures reads { body_of variables.old (length operators.old) (length entries.old) (place_of cursor.old) ≡ answered_body result variables.new operators.new entries.new cursor.new }
    ensures room { IfOk result (λ n. (n.variables ≡ length variables.new) × (n.operators ≤ length operators.new) × (n.entries ≤ length entries.new)) }
{
    state(cursor, variables)?;
    let mut entries = Entries::new(variables, entries);
    let goals = goal(cursor, &mut entries)?;
    let count = cursor.number(0..257)?;
    operator_list(cursor, &mut entries, operators, count)?;
    cursor.word(b"0")?;
    if !cursor.rest.is_empty() {
        return Err(cursor.next_fault(Cause::After));
    }
    Ok(Counts {
        variables: entries.variables.len(),
        goals,
        operators: count,
        entries: entries.used,
    })
}

// The whole text; answers how many of the first records are used.
fn read_whole(
    cursor: &mut Cursor,
    variables: &mut [Variable],
    operators: &mut [Operator],
    entries: &mut [Entry],
) -> Result<Counts, Fault>
    ensures reads { whole_of (record { variables = length variables.entry.now; operators = length operators.old; entries = length entries.old }) (place_of cursor.old) ≡ answered_whole result variables.exit.now operators.new entries.new cursor.new }
    ensures room { IfOk result (λ n. (n.variables ≤ length variables.new) × (n.operators ≤ length operators.new) × (n.entries ≤ length entries.new)) }
{
    heading(cursor)?;
    let count = cursor.number(1..33)?;
    variable_list(cursor, count, variables)?;
    body(cursor, &mut variables[..count], operators, entries)
}

// Reads a task text into the first records and answers how many of them are used.
#[tactic(auto, unfolding(crate::specs::Whole::task_of))]
fn read_limited(
    text: &[u8],
    variables: &mut [Variable],
    operators: &mut [Operator],
    entries: &mut [Entry],
) -> Result<Counts, Fault>
    ensures reads { task_of text.now (room_of (length variables.old) (length operators.old) (length entries.old)) ≡ held_by result variables.new operators.new entries.new }
    ensures room { IfOk result (λ n. (n.variables ≤ length variables.new) × (n.operators ≤ length operators.new) × (n.entries ≤ length entries.new)) }
{
    if text.len() > 65536 {
        return Err(Fault {
            cause: Cause::Long,
            line: 0,
            operator: None,
        });
    }
    let mut cursor = Cursor::new(text);
    let room = entries.len().min(4096);
    read_whole(&mut cursor, variables, operators, &mut entries[..room])
}

// Reads a task text into the first records and answers how many of them are used.
// A refused reading leaves all records zero, an accepted one those that it does not use.
pub fn read_task(
    text: &[u8],
    variables: &mut [Variable],
    operators: &mut [Operator],
    entries: &mut [Entry],
) -> Result<Counts, Fault>
    ensures { TaskRead (task_of text.now (room_of (length variables.old) (length operators.old) (length entries.old))) result (length variables.old) variables.new (length operators.old) operators.new (length entries.old) entries.new }
{
    let result = read_limited(text, variables, operators, entries);
    let used = result.unwrap_or(NONE);
    variables[used.variables..].fill(Variable::ZERO);
    operators[used.operators..].fill(Operator::ZERO);
    entries[used.entries..].fill(Entry::ZERO);
    result
}
