// Calls given as data, and the law of the run that they make.
ghost use Rattle.std.specs.Prelude.{◌≡◌, ℕ, min, List, length};
ghost use Rattle.task.specs.Model.{model};
ghost use Rattle.plain.specs.Plain.{opened};
ghost use Rattle.memory.specs.Rows.{Untouched};
ghost use Rattle.memory.specs.Plans.{plan_text};
ghost use Rattle.search.specs.Search.{plain_of, find_of};
ghost use Rattle.search.specs.Replay.{WritesPart, OneCall, LawfulReplay};

use crate::answer::{Find, GoAhead};
use crate::data::{Call, Outcome, Part, Reply};
use crate::search::Search;
use estimator::estimator::Estimator;

impl<'a> Search<'a> {
    // A start with a part of the row.
    fn start_part<E: Estimator>(&mut self, estimator: &mut E, row: &mut [u32], part: Part) -> Reply
        ensures same { self.new.task ≡ self.old.task }
        ensures untouched { Untouched self.old.core.memory self.new.core.memory }
        ensures does { (buffer : List ℕ) → OneCall E.meaning (model self.old.task) self.old.core.memory.capacity (plan_text self.old.task) (Call.Start part) (record { row = row.entry.now; buffer = buffer }) (plain_of self.old.core) estimator.old result (record { row = row.exit.now; buffer = buffer }) (plain_of self.new.core) estimator.new }
    {
        let places = part.within(row.len());
        self.start(&mut row[places], estimator).into()
    }

    // A writing into a part of the buffer.
    fn write_part(&self, find: Find, buffer: &mut [u8], part: Part) -> Reply
        ensures { WritesPart (plan_text self.now.task) (find_of find) part buffer.old (plain_of self.now.core) result buffer.new }
    {
        let places = part.within(buffer.len());
        self.write(find, &mut buffer[places]).into()
    }

    // One call given as data. Every advance has a go-ahead; one is as good as another.
    fn make<E: Estimator>(
        &mut self,
        estimator: &mut E,
        row: &mut [u32],
        buffer: &mut [u8],
        call: Call,
    ) -> Reply
        ensures same { self.new.task ≡ self.old.task }
        ensures untouched { Untouched self.old.core.memory self.new.core.memory }
        ensures does { OneCall E.meaning (model self.old.task) self.old.core.memory.capacity (plan_text self.old.task) call (record { row = row.entry.now; buffer = buffer.old }) (plain_of self.old.core) estimator.old result (record { row = row.exit.now; buffer = buffer.new }) (plain_of self.new.core) estimator.new }
    {
        match call {
            Call::Start(part) => self.start_part(estimator, row, part),
            Call::Advance(count) => self.advance(estimator, count, GoAhead::give()).into(),
            Call::Write(node, cost, part) => self.write_part(Find { node, cost }, buffer, part),
            Call::Read => Reply {
                outcome: Ok(Outcome::Bound),
                go: false,
                bound: Some(self.bound()),
                total: None,
            },
        }
    }
}

// Makes the calls one after another on a search just opened, as many as there are places for their replies.
pub fn replay<E: Estimator>(
    search: &mut Search,
    estimator: &mut E,
    row: &mut [u32],
    buffer: &mut [u8],
    calls: &[Call],
    replies: &mut [Reply],
)
    ensures { plain_of search.old.core ≡ opened → LawfulReplay E.meaning (model search.old.task) search.old.core.memory.capacity (plan_text search.old.task) calls.now replies.new (min (length calls.now) (length replies.old)) (record { row = row.entry.now; buffer = buffer.old }) (record { row = row.exit.now; buffer = buffer.new }) estimator.old (plain_of search.new.core) estimator.new }
{
    let count = calls.len().min(replies.len());
    // By place: of a slice that is written through a zip, a proof knows the length alone.
    for place in 0..count {
        replies[place] = search.make(estimator, row, buffer, calls[place]);
    }
}
