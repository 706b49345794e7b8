ghost use Rattle.std.specs.Result.{MatchResult};
ghost use Rattle.task.specs.Model.{model};
ghost use Rattle.estimator.specs.Bound.{Bound, Refused};

use super::estimator::Estimator;
use super::fault::SetFault;
use task::task::Task;

// Sets the estimator on the task at layer 1 and asks about the state. What it answers bounds every plan at the prices
// offered too, since no more is held than was offered.
pub fn lower_bound<E: Estimator>(
    estimator: &mut E,
    task: &Task<'_>,
    row: &mut [u32],
    state: &[u8],
) -> Result<Option<u32>, SetFault>
    ensures { MatchResult result (λ answer. Bound E.meaning estimator.old (model task.now) row.old row.new state.now answer estimator.new) (λ fault. Refused E.meaning estimator.old (model task.now) row.old row.new fault estimator.new) }
{
    estimator.set(task, row, 1)?;
    Ok(estimator.estimate(task, state))
}
