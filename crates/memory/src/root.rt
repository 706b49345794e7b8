// The first node.
ghost use Rattle.std.specs.Prelude.{◌≡◌, ℕ, ◌+◌, ◌<◌, ◌≤◌, length};
ghost use Rattle.task.specs.Model.{model};
ghost use Rattle.memory.specs.Rows.{Consistent, Untouched, nodes_of};
ghost use Rattle.memory.specs.Steps.{Rooted};

use crate::memory::Memory;
use crate::node::Node;
use estimator::estimator::Estimator;
use task::task::Task;

impl<'a> Memory<'a> {
    // Node 0: the initial state, which is in the open list if its estimate is a number.
    pub fn root<E: Estimator>(&mut self, task: &Task<'_>, estimator: &mut E)
        requires consistent { Consistent self.old }
        requires empty { self.old.held ≡ 0 }
        requires some { 0 < self.old.capacity }
        requires variables { self.old.variables ≡ length task.now.variables.now }
        ensures consistent { Consistent self.new }
        ensures untouched { Untouched self.old self.new }
        ensures rooted { Rooted E.meaning.answers (model task.now) estimator.old (nodes_of self.new) estimator.new }
    {
        let mut bytes = [0u8; 32];
        let state = &mut bytes[..self.variables];
        task.initial_into(state);
        let first = Node {
            g: 0,
            parent: 0,
            operator: 0,
        };
        // An empty memory has room for it.
        let _ = self.reach(task, estimator, state, first);
    }
}
