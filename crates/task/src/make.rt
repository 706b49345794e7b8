// Making a task of records, or in the place of another, which a refusal leaves as it was.
ghost use Rattle.std.specs.Prelude.{◌≡◌};
ghost use Rattle.task.specs.Model.{model};
ghost use Rattle.task.specs.Making.{Made, Put, single};

use super::task::Task;
use tables::cause::Cause;
use tables::fault::Fault;
use tables::records::{Counts, Entry, Operator, Variable};
use tables::rules::keeps_rules;

// One variable of one value.
const SINGLE: [Variable; 1] = [Variable {
    domain: 1,
    ..Variable::ZERO
}];

// What making a task refuses with.
const REFUSAL: Fault = Fault {
    cause: Cause::Range,
    line: 0,
    operator: None,
};

impl<'a> Task<'a> {
    // The built-in task: one variable of one value, no goal facts and no operators. Other tasks are put in its place.
    pub fn built_in() -> Task<'a>
        ensures { model result ≡ single }
    {
        Task {
            text: &[],
            variables: &SINGLE,
            goal: &[],
            operators: &[],
            entries: &[],
        }
    }

    // The task of the text and the first records, as many as counted. Where they break a rule or the counts go beyond
    // the records it refuses with RANGE, line 0.
    pub fn new(
        text: &'a [u8],
        variables: &'a [Variable],
        operators: &'a [Operator],
        entries: &'a [Entry],
        counts: Counts,
    ) -> Result<Task<'a>, Fault>
        ensures { Made text.now variables.now operators.now entries.now counts result }
    {
        let variables = variables.get(..counts.variables).ok_or(REFUSAL)?;
        let operators = operators.get(..counts.operators).ok_or(REFUSAL)?;
        let counted = entries.get(..counts.entries).ok_or(REFUSAL)?;
        let goal = counted.get(..counts.goals).ok_or(REFUSAL)?;
        if !keeps_rules(text, variables, goal, operators, counted) {
            return Err(REFUSAL);
        }
        Ok(Task {
            text,
            variables,
            goal,
            operators,
            entries: counted,
        })
    }

    // Puts the task of the text and the first records, as many as counted, in this one's place. A refusal is that of
    // `new`, and this task then stays.
    pub fn put(
        &mut self,
        text: &'a [u8],
        variables: &'a [Variable],
        operators: &'a [Operator],
        entries: &'a [Entry],
        counts: Counts,
    ) -> Result<(), Fault>
        ensures { Put text.now variables.now operators.now entries.now counts result self.old self.new }
    {
        *self = Task::new(text, variables, operators, entries, counts)?;
        Ok(())
    }
}
