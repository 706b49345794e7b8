ghost use Rattle.task.specs.Model.{model};
ghost use Rattle.search.specs.Search.{Valid};

use crate::inner::Core;
use task::task::Task;

// A search of a task in lent memory.
#[derive(Drop)]
pub struct Search<'a> {
    pub(crate) task: Task<'a>,
    pub(crate) core: Core<'a>,
    ghost ok: { ∥ Valid (model task) core ∥₁ },
}
