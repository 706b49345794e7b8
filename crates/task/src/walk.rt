// Walking a list of operators from a state.
ghost use Rattle.std.specs.Prelude.{◌≡◌, ℕ, ◌≤◌};
ghost use Rattle.task.specs.Model.{model};
ghost use Rattle.task.specs.Walking.{Took, Walk, CostsJoin, LeadsJoin};

use super::task::Task;

// How a walk went: how many operators applied in turn, their total price, cut at the largest of 32 bits, and whether
// it ended in a goal state.
#[derive(Clone, Copy, PartialEq, Eq, Debug)]
pub struct Walked {
    pub steps: usize,
    pub cost: u32,
    pub goal: bool,
}

impl<'a> Task<'a> {
    // Applies the operators in turn to the row, up to the first that does not apply; answers how many applied, and
    // their total price, cut at the largest of 32 bits.
    fn take_steps(&self, operators: &[usize], row: &mut [u8]) -> (usize, u32)
        ensures { Took (model self.now) row.old operators.now result.0 result.1 row.new }
    {
        let mut cost: u32 = 0;
        for (steps, operator) in operators.iter().enumerate() {
            if !self.apply(*operator, row) {
                return (steps, cost);
            }
            cost = cost.saturating_add(self.price(*operator));
        }
        (operators.len(), cost)
    }

    // Walks the operators in turn from the row, which then holds where the walk ended.
    pub fn walk(&self, operators: &[usize], row: &mut [u8]) -> Walked
        ensures walked { Walk (model self.now) row.old operators.now result row.new }
        ensures costs { CostsJoin }
        ensures leads { LeadsJoin (model self.now) }
    {
        let (steps, cost) = self.take_steps(operators, row);
        Walked {
            steps,
            cost,
            goal: self.is_goal_state(row),
        }
    }
}
