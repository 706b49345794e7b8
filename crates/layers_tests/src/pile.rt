ghost use Rattle.std.specs.Prelude.{◌≡◌, MatchResult};
ghost use Rattle.task.specs.Model.{model, IsState};
ghost use Rattle.estimator.specs.Price.{Admissible};

use super::leaf::Leaf;
use estimator::bound::lower_bound;
use estimator::fault::SetFault;
use layers::maximum::Maximum;
use layers::partition::Partition;
use task::task::Task;

// A pile four deep. At layer 1 its leaves are, from the deepest on, layers 16, 17, 9, 5 and 3.
type Pile = Partition<Maximum<Partition<Maximum<Leaf, Leaf>, Leaf>, Leaf>, Leaf>;

// What any estimator gives its caller the pile gives too, by the laws of what it is made of.
pub fn pile_bound(
    pile: &mut Pile,
    task: &Task<'_>,
    row: &mut [u32],
    state: &[u8],
) -> Result<Option<u32>, SetFault>
    ensures { MatchResult result (λ answer. IsState (model task.now) state.now → Admissible (model task.now) row.old state.now answer) (λ _. row.new ≡ row.old) }
{
    lower_bound(pile, task, row, state)
}
