// Whether records keep the rules of a task.
ghost use Rattle.std.specs.Prelude.{ℕ, ◌<◌, ◌≤◌, length, slice_index_or};
ghost use Rattle.tables.specs.Tells.{Tells};
ghost use Rattle.tables.specs.Rules.{VariableFits, VariablesFit, EntryFits, EntriesFit, RequiredFits, RequiredFit, Distinct, OperatorFits, OperatorsFit, OperatorsDistinct, EntriesInside, EntryRules, Rules};
ghost use Rattle.tables.specs.Records.{zero_operator, end_at, entries_of};

use super::records::{Entry, Operator, Variable};

// Whether the variable has values, the initial one among them, and names inside the text.
fn variable_fits(variable: &Variable, bytes: usize) -> bool
    ensures { Tells result (VariableFits bytes variable.now) }
{
    variable.name.fits(bytes) && variable.values.fits(bytes) && variable.initial < variable.domain
}

// Whether each variable does.
fn variables_fit(variables: &[Variable], bytes: usize) -> bool
    ensures { Tells result (VariablesFit bytes variables.now) }
{
    variables
        .iter()
        .all(|variable| variable_fits(variable, bytes))
}

// Whether the entry names a variable and one of its values.
fn entry_fits(entry: &Entry, variables: &[Variable]) -> bool
    ensures { Tells result (EntryFits variables.now entry.now) }
{
    variables
        .get(entry.variable as usize)
        .is_some_and(|variable| entry.value < variable.domain)
}

// Whether each entry does.
fn entries_fit(entries: &[Entry], variables: &[Variable]) -> bool
    ensures { Tells result (EntriesFit variables.now entries.now) }
{
    entries.iter().all(|entry| entry_fits(entry, variables))
}

// Whether a value that the entry requires is one of its variable's.
fn required_fits(entry: &Entry, variables: &[Variable]) -> bool
    ensures { Tells result (RequiredFits variables.now entry.now) }
{
    entry.required.is_none_or(|value| {
        variables
            .get(entry.variable as usize)
            .is_some_and(|variable| value < variable.domain)
    })
}

// Whether each entry's is.
fn required_fit(entries: &[Entry], variables: &[Variable]) -> bool
    ensures { Tells result (RequiredFit variables.now entries.now) }
{
    entries.iter().all(|entry| required_fits(entry, variables))
}

// Whether no variable is named twice: a mark for each variable that was met. A loop, since a chain's closure that changes
// the marks would leave its results unknown.
fn is_distinct(entries: &[Entry]) -> bool
    requires { EntriesInside entries.now 32 }
    ensures { Tells result (Distinct entries.now) }
{
    let mut met = [false; 32];
    for entry in entries {
        let variable = entry.variable as usize;
        if met[variable] {
            return false;
        }
        met[variable] = true;
    }
    true
}

// Whether the operator has its name inside the text, a price in range, and its entries among so many.
fn operator_fits(operator: &Operator, bytes: usize, entries: usize) -> bool
    ensures { Tells result (OperatorFits bytes entries operator.now) }
{
    operator.name.fits(bytes)
        && operator.price <= 65535
        && operator.first <= entries
        && operator.conditions <= entries - operator.first
        && operator.effects <= entries - operator.first - operator.conditions
}

// Whether each operator does.
fn operators_fit(operators: &[Operator], bytes: usize, entries: usize) -> bool
    ensures { Tells result (OperatorsFit bytes entries operators.now) }
{
    operators
        .iter()
        .all(|operator| operator_fits(operator, bytes, entries))
}

// Whether the operator names no variable twice.
fn operator_distinct(operator: &Operator, entries: &[Entry]) -> bool
    requires inside { EntriesInside entries.now 32 }
    requires among { end_at operator.now ≤ length entries.now }
    ensures { Tells result (Distinct (entries_of entries.now operator.now)) }
{
    is_distinct(operator.entries_in(entries))
}

// Whether no operator does.
fn operators_distinct(operators: &[Operator], entries: &[Entry]) -> bool
    requires inside { EntriesInside entries.now 32 }
    requires among { (k : ℕ) → k < length operators.now → end_at (slice_index_or operators.now k zero_operator) ≤ length entries.now }
    ensures { Tells result (OperatorsDistinct entries.now operators.now) }
{
    operators
        .iter()
        .all(|operator| operator_distinct(operator, entries))
}

// Whether goal facts and entries keep the rules, among variables and operators that do.
fn entries_keep_rules(
    variables: &[Variable],
    goal: &[Entry],
    operators: &[Operator],
    entries: &[Entry],
) -> bool
    requires few { length variables.now ≤ 32 }
    requires among { (k : ℕ) → k < length operators.now → end_at (slice_index_or operators.now k zero_operator) ≤ length entries.now }
    ensures { Tells result (EntryRules variables.now goal.now operators.now entries.now) }
{
    entries_fit(goal, variables)
        && is_distinct(goal)
        && entries_fit(entries, variables)
        && required_fit(entries, variables)
        && operators_distinct(operators, entries)
}

// Whether text and records keep the rules of a task. They come one by one, since a struct of them, without the rules,
// would be a second task.
pub fn keeps_rules(
    text: &[u8],
    variables: &[Variable],
    goal: &[Entry],
    operators: &[Operator],
    entries: &[Entry],
) -> bool
    ensures { Tells result (Rules text.now variables.now goal.now operators.now entries.now) }
{
    !variables.is_empty()
        && variables.len() <= 32
        && operators.len() <= 256
        && entries.len() <= 4096
        && variables_fit(variables, text.len())
        && operators_fit(operators, text.len(), entries.len())
        && entries_keep_rules(variables, goal, operators, entries)
}
