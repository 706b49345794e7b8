// Cutting an operator and the goal down to one variable.
ghost use Rattle.std.specs.Prelude.{◌≡◌, ℕ, ◌<◌, ◌≤◌, length, slice_index};
ghost use Rattle.task.specs.Model.{model, operator as operator_of};
ghost use Rattle.abstraction.specs.Parts.{value_on, effect_on, PartOf, GoalPart};

use super::part::OperatorPart;
use tables::records::Entry;
use task::task::Task;

// The value that the facts give the variable, if one speaks of it.
fn value_on(facts: &[Entry], variable: u8) -> Option<u8>
    ensures { result ≡ value_on variable facts.now }
{
    facts
        .iter()
        .find(|fact| fact.variable == variable)
        .map(|fact| fact.value)
}

// The part that an effect on the variable makes, if there is one.
fn effect_on(effects: &[Entry], variable: u8) -> Option<OperatorPart>
    ensures { result ≡ effect_on variable effects.now }
{
    effects
        .iter()
        .find(|effect| effect.variable == variable)
        .map(|effect| OperatorPart {
            required: effect.required,
            value: Some(effect.value),
        })
}

// The operator cut down to the variable. No operator names a variable twice, so an effect on it leaves no condition on it.
pub(crate) fn operator_part(task: &Task<'_>, operator: usize, variable: u8) -> OperatorPart
    requires { operator < length task.now.operators.now }
    ensures { PartOf (operator_of (model task.now) operator) variable (slice_index (model task.now).domains variable) result }
{
    let record = task.operators[operator];
    if let Some(part) = effect_on(record.effects_in(task.entries), variable) {
        return part;
    }
    OperatorPart {
        required: value_on(record.conditions_in(task.entries), variable),
        value: None,
    }
}

// The goal cut down to the variable: the value that it has in a goal state, if the goal speaks of it.
pub(crate) fn goal_part(task: &Task<'_>, variable: u8) -> Option<u8>
    ensures { GoalPart (model task.now).goal variable result }
{
    value_on(task.goal, variable)
}
