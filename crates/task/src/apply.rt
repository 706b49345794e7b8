// What operators do to a state.
ghost use Rattle.std.specs.Prelude.{◌≡◌, ℕ, ◌<◌, ◌≤◌, length};
ghost use Rattle.tables.specs.Tells.{Tells};
ghost use Rattle.task.specs.Model.{model, AllAdmit, updated, IsState};
ghost use Rattle.task.specs.Answers.{MovedRow, MovedState};
ghost use Rattle.tables.specs.Rules.{EntriesInside};

use super::state::all_hold;
use super::task::Task;
use tables::records::Entry;

// Whether each effect admits its variable's value in the row.
fn all_admit(effects: &[Entry], row: &[u8]) -> bool
    requires { EntriesInside effects.now (length row.now) }
    ensures { Tells result (AllAdmit row.now effects.now) }
{
    effects.iter().all(|effect| {
        effect
            .required
            .is_none_or(|required| row[effect.variable as usize] == required)
    })
}

// Gives each effect's variable its value.
fn update(effects: &[Entry], row: &mut [u8])
    requires { EntriesInside effects.now (length row.old) }
    ensures { row.new ≡ updated row.old effects.now }
{
    for effect in effects {
        row[effect.variable as usize] = effect.value;
    }
}

impl<'a> Task<'a> {
    // Changes a row of one byte a variable by the operator of that number, and answers whether it applies. A row of
    // another length and a number that is no operator's do not apply, and where it does not apply the row stays.
    // It costs the operator's own entries; of a state it leaves a state.
    pub fn apply_to_row(&self, operator: usize, row: &mut [u8]) -> bool
        ensures { MovedRow result (model self.now) row.old operator row.new }
    {
        if row.len() != self.variables.len() {
            return false;
        }
        let Some(record) = self.operators.get(operator) else {
            return false;
        };
        let conditions = record.conditions_in(self.entries);
        let effects = record.effects_in(self.entries);
        if !all_hold(conditions, row) || !all_admit(effects, row) {
            return false;
        }
        update(effects, row);
        true
    }

    // Changes a state by the operator of that number, and answers whether it applies. To a row that is no state no
    // operator applies; where it does not apply the row stays.
    pub fn apply(&self, operator: usize, row: &mut [u8]) -> bool
        ensures moved { MovedState result (model self.now) row.old operator row.new }
        ensures state { IsState (model self.now) row.old → IsState (model self.now) row.new }
    {
        self.is_state(row) && self.apply_to_row(operator, row)
    }
}
