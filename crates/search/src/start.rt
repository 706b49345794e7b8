// The start of a search.
ghost use Rattle.std.specs.Prelude.{◌≡◌};
ghost use Rattle.task.specs.Model.{model};
ghost use Rattle.plain.specs.Plain.{Starts, reports};
ghost use Rattle.memory.specs.Rows.{Untouched};
ghost use Rattle.search.specs.Search.{plain_of, start_outcome, start_go_ahead};

use crate::answer::GoAhead;
use crate::inner::Status;
use crate::search::Search;
use estimator::estimator::Estimator;
use plain::fault::Fault;
use tables::cause::Cause;

impl<'a> Search<'a> {
    // Sets the estimator on the task, and puts the initial state into the open list.
    pub fn start<E: Estimator>(
        &mut self,
        row: &mut [u32],
        estimator: &mut E,
    ) -> Result<GoAhead, Fault>
        ensures same { self.new.task ≡ self.old.task }
        ensures untouched { Untouched self.old.core.memory self.new.core.memory }
        ensures does { Starts E.meaning (model self.old.task) self.old.core.memory.capacity row.old (plain_of self.old.core) estimator.old (reports (start_outcome result) row.new (start_go_ahead result) (plain_of self.new.core)) (plain_of self.new.core) estimator.new }
    {
        if self.core.status != Status::Fresh {
            return Err(Cause::Order.into());
        }
        if self.core.memory.capacity == 0 {
            return Err(Cause::Room.into());
        }
        // Copied: a field of a struct with a ghost field is not lent while another is written.
        let task = self.task;
        if !task.prices_into(row) {
            return Err(Cause::Row.into());
        }
        estimator.set(&task, row, 1)?;
        self.core.memory.root(&task, estimator);
        self.core.status = Status::Running;
        Ok(GoAhead::give())
    }
}
