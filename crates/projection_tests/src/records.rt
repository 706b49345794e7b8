ghost use Rattle.std.specs.Prelude.{ℕ, ◌≤◌};

use estimator::estimator::Estimator;
use projection::projection::Projection;
use queue::entries::RankEntry;
use tables::records::{Counts, Entry, Operator, Span, Variable};
use task::task::Task;

// An entry with something in it, which a projection has to overwrite.
pub const STALE: RankEntry = RankEntry {
    distance: 7,
    rank: 7,
};

// A variable with that many values, which starts at 0.
pub fn variable(domain: u8) -> Variable {
    Variable {
        name: Span::ZERO,
        values: Span::ZERO,
        domain,
        initial: 0,
    }
}

// An operator whose entries start at that place.
pub fn operator(price: u32, first: usize, conditions: usize, effects: usize) -> Operator {
    Operator {
        name: Span::ZERO,
        price,
        first,
        conditions,
        effects,
    }
}

// A goal fact or a prevail condition.
pub fn fact(variable: u8, value: u8) -> Entry {
    Entry {
        variable,
        required: None,
        value,
    }
}

// An effect.
pub fn effect(variable: u8, required: Option<u8>, value: u8) -> Entry {
    Entry {
        variable,
        required,
        value,
    }
}

// The records of a task, of whose entries that many are goal facts.
#[derive(Drop)]
pub struct Records<const V: usize, const O: usize, const E: usize> {
    pub variables: [Variable; V],
    pub operators: [Operator; O],
    pub entries: [Entry; E],
    pub goals: usize,
}

impl<const V: usize, const O: usize, const E: usize> Records<V, O, E> {
    // The task of all of them.
    pub fn task(&self) -> Task<'_> {
        task(&self.variables, &self.operators, &self.entries, self.goals)
    }
}

// The task of all of the records, of whose entries that many are goal facts.
pub fn task<'a>(
    variables: &'a [Variable],
    operators: &'a [Operator],
    entries: &'a [Entry],
    goals: usize,
) -> Task<'a> {
    let mut task = Task::built_in();
    let counts = Counts {
        variables: variables.len(),
        goals,
        operators: operators.len(),
        entries: entries.len(),
    };
    let _ = task.put(b"", variables, operators, entries, counts);
    task
}

// Sets a projection to the pattern, and asks it about the state: the number of the fault's cause, if it is refused, and the
// answer.
pub fn set_and_ask(
    task: &Task<'_>,
    pattern: &[u8],
    table: &mut [u32],
    entries: &mut [RankEntry],
    places: &mut [u32],
    row: &mut [u32],
    state: &[u8],
) -> (Option<u8>, Option<u32>) {
    let mut projection = Projection::new(pattern, table, entries, places);
    let refused = projection
        .set(task, row, 1)
        .err()
        .map(|fault| fault.cause.number());
    (refused, projection.estimate(task, state))
}

// The same with queue memory of its own for that many ranks.
pub fn ask<const RANKS: usize>(
    task: &Task<'_>,
    pattern: &[u8],
    table: &mut [u32],
    row: &mut [u32],
    state: &[u8],
) -> (Option<u8>, Option<u32>)
    requires { RANKS ≤ 65536 }
{
    let (mut entries, mut places) = ([STALE; RANKS], [0; RANKS]);
    set_and_ask(task, pattern, table, &mut entries, &mut places, row, state)
}
