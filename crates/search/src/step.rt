// One step of the search.
ghost use Rattle.std.specs.Prelude.{◌≡◌};
ghost use Rattle.task.specs.Model.{model};
ghost use Rattle.memory.specs.Rows.{Untouched};
ghost use Rattle.search.specs.Search.{plain_of, Stepped};

use crate::answer::Find;
use crate::inner::{Event, Status};
use crate::search::Search;
use estimator::estimator::Estimator;

impl<'a> Search<'a> {
    // Takes the least entry of the open list, and expands its node unless it has a goal state.
    pub(crate) fn step<E: Estimator>(&mut self, estimator: &mut E) -> Event
        requires { self.old.core.status ≡ Status.Running }
        ensures same { self.new.task ≡ self.old.task }
        ensures untouched { Untouched self.old.core.memory self.new.core.memory }
        ensures runs { self.new.core.status ≡ Status.Running }
        ensures stepped { Stepped E.meaning (model self.old.task) self.old.core.memory.capacity (plain_of self.old.core) estimator.old result (plain_of self.new.core) estimator.new }
    {
        // Copied: a field of a struct with a ghost field is not lent while another is written.
        let task = self.task;
        let core = &mut self.core;
        let Some(top) = core.memory.take_least() else {
            return Event::Empty;
        };
        core.bound = core.bound.max(top.f);
        let node = top.node as usize;
        if core.memory.at_goal(&task, node) {
            return Event::Goal(Find {
                node: top.node,
                cost: core.memory.nodes[node].g,
            });
        }
        core.total += 1;
        match core.memory.expand(&task, estimator, node) {
            Ok(()) => Event::Expanded,
            Err(_) => Event::Overflow,
        }
    }
}
