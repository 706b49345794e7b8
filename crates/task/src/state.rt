// Reading a task: its sizes, prices, initial state, and which rows are states and goal states.
ghost use Rattle.std.specs.Prelude.{◌≡◌, ◌≢◌, ℕ, ◌<◌, ◌≤◌, length, slice_index, slice_index_or};
ghost use Rattle.std.specs.Bool.{OnTrue, OnFalse};
ghost use Rattle.std.specs.Fn.{FnReturnsAt};
ghost use Rattle.tables.specs.Tells.{Tells};
ghost use Rattle.task.specs.Model.{model, prices, IsState, AllHold, IsGoal};
ghost use Rattle.task.specs.Answers.{IsGoalState, HasGoal, Filled};
ghost use Rattle.tables.specs.Rules.{EntriesInside};

use super::task::Task;
use tables::records::Entry;

// Whether each fact of the entries holds in the row.
pub(crate) fn all_hold(entries: &[Entry], row: &[u8]) -> bool
    requires { EntriesInside entries.now (length row.now) }
    ensures { Tells result (AllHold row.now entries.now) }
{
    entries
        .iter()
        .all(|entry| row[entry.variable as usize] == entry.value)
}

// Writes a number of each record into a row of just as many; any other row stays. By place, since after a loop over the
// row's `iter_mut` and the records a proof knows of the row only its length.
fn write_each<T, N: Copy, F: Fn(&T) -> N + Drop>(row: &mut [N], records: &[T], number: F) -> bool
    requires { F.IsAlwaysCallable number }
    ensures refused { OnFalse result ((length row.old ≢ length records.now) × (row.new ≡ row.old)) }
    ensures long { OnTrue result ((length row.old ≡ length records.now) × (length row.new ≡ length records.now)) }
    ensures each { OnTrue result ((k : ℕ) → k < length records.now → (d : T) (e : N) → FnReturnsAt F.Fn number (slice_index_or records.now k d) (slice_index_or row.new k e)) }
{
    if row.len() != records.len() {
        return false;
    }
    for (i, record) in records.iter().enumerate() {
        row[i] = number(record);
    }
    true
}

impl<'a> Task<'a> {
    // How many variables the task has.
    pub fn variable_count(&self) -> usize
        ensures { (result ≡ length (model self.now).domains) × (1 ≤ result) × (result ≤ 32) }
    {
        self.variables.len()
    }

    // How many operators the task has.
    pub fn operator_count(&self) -> usize
        ensures { (result ≡ length (model self.now).operators) × (result ≤ 256) }
    {
        self.operators.len()
    }

    // How many values the variable of that number has; 0 where there is no such variable.
    pub fn domain(&self, variable: usize) -> u8
        ensures { result ≡ slice_index (model self.now).domains variable }
    {
        self.variables
            .get(variable)
            .map_or(0, |record| record.domain)
    }

    // The price of the operator of that number; 0 where there is no such operator.
    pub fn price(&self, operator: usize) -> u32
        ensures is { result ≡ slice_index (prices (model self.now)) operator }
        ensures low { result ≤ 65535 }
    {
        self.operators
            .get(operator)
            .map_or(0, |record| record.price)
    }

    // Writes the price of each operator into a row of just that many numbers; any other row stays.
    pub fn prices_into(&self, row: &mut [u32]) -> bool
        ensures { Filled result row.old (prices (model self.now)) row.new }
    {
        write_each(row, self.operators, |operator| operator.price)
    }

    // Writes the initial state into a row of one byte a variable; any other row stays.
    pub fn initial_into(&self, row: &mut [u8]) -> bool
        ensures { Filled result row.old (model self.now).initial row.new }
    {
        write_each(row, self.variables, |variable| variable.initial)
    }

    // Whether the row is a state: one value for each variable.
    pub fn is_state(&self, row: &[u8]) -> bool
        ensures { Tells result (IsState (model self.now) row.now) }
    {
        row.len() == self.variables.len()
            && row
                .iter()
                .zip(self.variables)
                .all(|(value, variable)| *value < variable.domain)
    }

    // Whether a row of one byte a variable has every goal fact. Of a state this says whether it is a goal state,
    // at the cost of the goal facts alone.
    pub fn has_goal(&self, row: &[u8]) -> bool
        ensures { HasGoal result (model self.now) row.now }
    {
        row.len() == self.variables.len() && all_hold(self.goal, row)
    }

    // Whether the row is a goal state.
    pub fn is_goal_state(&self, row: &[u8]) -> bool
        ensures { Tells result (IsGoalState (model self.now) row.now) }
    {
        self.is_state(row) && self.has_goal(row)
    }
}
