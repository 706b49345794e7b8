// Searching a task to its end, and writing the plan that was found.
ghost use Rattle.std.specs.Prelude.{◌≡◌, ℕ, List, length};
ghost use Rattle.task.specs.Model.{model};
ghost use Rattle.plain.specs.Plain.{opened, running};
ghost use Rattle.plain.specs.Runs.{Run, Reached};
ghost use Rattle.memory.specs.Plans.{plan_text};
ghost use Rattle.search.specs.Search.{plain_of};
ghost use Rattle.planner.specs.Solving.{Solved, Ended};

use estimator::estimator::Estimator;
use plain::fault::Fault;
use search::answer::{GoAhead, Progress};
use search::search::Search;

// How many expansions are made at a time.
const STEP: u64 = 1000;

// What a search came to: a plan, written into the first bytes of the buffer, so many of them; no plan; or no room for
// all states.
#[derive(Clone, Copy, Debug, PartialEq, Eq)]
pub enum Solution {
    Plan(usize),
    NoPlan,
    Full,
}

// Advances a running search to its end, and writes the plan if one was found.
fn run_to_end<E: Estimator>(
    search: &mut Search,
    estimator: &mut E,
    mut go: GoAhead,
    buffer: &mut [u8],
) -> Result<Solution, Fault>
    ensures { (start : E) (run : Run) → Reached E.meaning (model search.old.task) search.old.core.memory.capacity (plan_text search.old.task) start run (plain_of search.old.core) estimator.old → (plain_of search.old.core).status ≡ running → Ended (model search.old.task) search.old.core.memory.capacity (plan_text search.old.task) buffer.old result buffer.new }
{
    loop {
        match search.advance(estimator, STEP, go).progress? {
            Progress::More(next) => go = next,
            Progress::Found(find) => return Ok(Solution::Plan(search.write(find, buffer)?)),
            Progress::NoPlan => return Ok(Solution::NoPlan),
            Progress::Full => return Ok(Solution::Full),
        }
    }
}

// Starts a search that was just opened, advances it to its end, and writes the plan if one was found.
pub fn solve<E: Estimator>(
    search: &mut Search,
    row: &mut [u32],
    estimator: &mut E,
    buffer: &mut [u8],
) -> Result<Solution, Fault>
    ensures { plain_of search.old.core ≡ opened → Solved E.meaning.sets (model search.old.task) search.old.core.memory.capacity (plan_text search.old.task) row.old estimator.old buffer.old result buffer.new }
{
    let go = search.start(row, estimator)?;
    run_to_end(search, estimator, go, buffer)
}
