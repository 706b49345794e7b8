// Advances: steps until n expansions are made, or the search ends.
ghost use Rattle.std.specs.Prelude.{◌≡◌, []};
ghost use Rattle.task.specs.Model.{model};
ghost use Rattle.plain.specs.Plain.{Advances, reports};
ghost use Rattle.memory.specs.Rows.{Untouched};
ghost use Rattle.search.specs.Search.{plain_of, Ran, outcome_of, go_ahead_of};

use crate::answer::{Advanced, GoAhead, Refused};
use crate::inner::{Event, Status};
use crate::search::Search;
use estimator::estimator::Estimator;
use tables::cause::Cause;

impl<'a> Search<'a> {
    // Steps until that many expansions are made, or one comes to something else.
    fn run<E: Estimator>(&mut self, estimator: &mut E, expansions: u64) -> Event
        requires { self.old.core.status ≡ Status.Running }
        ensures same { self.new.task ≡ self.old.task }
        ensures untouched { Untouched self.old.core.memory self.new.core.memory }
        ensures runs { self.new.core.status ≡ Status.Running }
        ensures ran { Ran E.meaning (model self.old.task) self.old.core.memory.capacity expansions (plain_of self.old.core) estimator.old result (plain_of self.new.core) estimator.new }
    {
        for _ in 0..expansions {
            let event = self.step(estimator);
            if event != Event::Expanded {
                return event;
            }
        }
        Event::Expanded
    }

    // Makes that many expansions, unless the search ends before.
    pub fn advance<E: Estimator>(
        &mut self,
        estimator: &mut E,
        expansions: u64,
        go: GoAhead,
    ) -> Advanced
        ensures same { self.new.task ≡ self.old.task }
        ensures untouched { Untouched self.old.core.memory self.new.core.memory }
        ensures does { Advances E.meaning (model self.old.task) self.old.core.memory.capacity expansions (plain_of self.old.core) estimator.old (reports (outcome_of result.progress) [] (go_ahead_of result.progress) (plain_of self.new.core)) (plain_of self.new.core) estimator.new }
        ensures tells { (result.bound ≡ self.new.core.bound) × (result.total ≡ self.new.core.total) }
    {
        if self.core.status != Status::Running {
            return self.core.report(Err(Refused {
                cause: Cause::Order,
                go,
            }));
        }
        let event = self.run(estimator, expansions);
        let progress = self.core.conclude(event, go);
        self.core.report(progress)
    }
}
