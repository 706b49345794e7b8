// Making an abstract task.
ghost use Rattle.std.specs.Prelude.{◌≡◌, ℕ, ◌<◌, ◌≤◌, length, slice_index_or};
ghost use Rattle.task.specs.Model.{model};
ghost use Rattle.abstraction.specs.Patterns.{IsPattern};
ghost use Rattle.abstraction.specs.Projected.{sizes};
ghost use Rattle.abstraction.specs.Ranks.{product};
ghost use Rattle.abstraction.specs.Standing.{unused, no_operator};
ghost use Rattle.abstraction.specs.Filling.{PlaceAt, PartAt, OperatorAt};

use super::abstract_task::AbstractTask;
use super::cut::{goal_part, operator_part};
use super::part::{AbstractOperator, OperatorPart};
use super::pattern::rank_count;
use super::place::Place;
use std::array;
use task::task::Task;

// What a place of the pattern has.
fn place_at(task: &Task<'_>, pattern: &[u8], index: usize) -> Place
    ensures { PlaceAt task.now pattern.now index result }
{
    if index >= pattern.len() {
        return Place::UNUSED;
    }
    let variable = pattern[index];
    Place {
        domain: task.domain(usize::from(variable)),
        weight: rank_count(task, &pattern[index + 1..]),
        goal: goal_part(task, variable),
    }
}

// The operator's part at a place of the pattern.
fn part_at(task: &Task<'_>, pattern: &[u8], operator: usize, index: usize) -> OperatorPart
    ensures { PartAt task.now pattern.now operator index result }
{
    if operator >= task.operators.len() || index >= pattern.len() {
        return OperatorPart::UNTOUCHED;
    }
    operator_part(task, operator, pattern[index])
}

// The operator cut down to the pattern.
fn abstract_operator(task: &Task<'_>, pattern: &[u8], operator: usize) -> AbstractOperator
    ensures { OperatorAt task.now pattern.now operator result }
{
    AbstractOperator {
        parts: array::from_fn(|index| part_at(task, pattern, operator, index)),
    }
}

// What each place has.
fn places_of(task: &Task<'_>, pattern: &[u8]) -> [Place; 8]
    ensures long { length result ≡ 8 }
    ensures places { (i : ℕ) → i < 8 → PlaceAt task.now pattern.now i (slice_index_or result i unused) }
{
    array::from_fn(|index| place_at(task, pattern, index))
}

// Writes each operator cut down to the pattern, in place: `from_fn` would write and move the 8 KiB four times, which on a
// small task is most of a set.
fn fill_operators(operators: &mut [AbstractOperator], task: &Task<'_>, pattern: &[u8])
    requires room { length operators.old ≡ 256 }
    requires long { (o : ℕ) → o < 256 → length (slice_index_or operators.old o no_operator).parts ≡ 8 }
    ensures room { length operators.new ≡ 256 }
    ensures operators { (o : ℕ) → o < 256 → OperatorAt task.now pattern.now o (slice_index_or operators.new o no_operator) }
{
    for operator in 0..task.operators.len() {
        operators[operator] = abstract_operator(task, pattern, operator);
    }
}

impl<'a> AbstractTask<'a> {
    // The task cut down to the pattern.
    pub fn new(task: &'a Task<'a>, pattern: &'a [u8]) -> AbstractTask<'a>
        requires pattern { IsPattern (model task.now) pattern.now }
        requires few { product (sizes (model task.now) pattern.now) ≤ 65536 }
        ensures task { model result.task.now ≡ model task.now }
        ensures pattern { result.pattern.now ≡ pattern.now }
    {
        let mut operators = [AbstractOperator::UNTOUCHED; 256];
        fill_operators(&mut operators, task, pattern);
        AbstractTask {
            task,
            pattern,
            places: places_of(task, pattern),
            operators,
        }
    }
}
