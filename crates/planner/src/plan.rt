// From a task text to its cheapest plan, under a partition of two projections, with room for 2,048 states.
ghost use Rattle.std.specs.Prelude.{◌≡◌, length, IfOk};
ghost use Rattle.planner.specs.Planning.{Answered, Within};
ghost use Rattle.planner.specs.Space.{Made};
ghost use Rattle.planner.specs.Errors.{error_text};
ghost use Rattle.planner.specs.declared.plan.PlanError.TheVariants.{Memory, Text, Search};

use super::patterns::pattern_length;
use super::solve::{Solution, solve};
use super::workspace::Workspace;
use layers::partition::Partition;
use std::alloc::{AllocError, Global};
use std::error::Error;
use std::{array, fmt};
use tables::fault::Fault;

// Why a text is not planned: no memory, the text's first fault, or a refusal of the search.
#[derive(Clone, Copy, PartialEq, Eq, Debug)]
pub enum PlanError {
    Memory(AllocError),
    Text(Fault),
    Search(plain::fault::Fault),
}

impl From<AllocError> for PlanError {
    ghost from_gives = { λ error r. r ≡ Memory error };

    fn from(memory: AllocError) -> PlanError {
        PlanError::Memory(memory)
    }
}

impl From<Fault> for PlanError {
    ghost from_gives = { λ fault r. r ≡ Text fault };

    fn from(text: Fault) -> PlanError {
        PlanError::Text(text)
    }
}

impl From<plain::fault::Fault> for PlanError {
    ghost from_gives = { λ fault r. r ≡ Search fault };

    fn from(search: plain::fault::Fault) -> PlanError {
        PlanError::Search(search)
    }
}

impl Error for PlanError {}

impl fmt::Display for PlanError {
    ghost output = { error_text };

    fn fmt<W: fmt::Write>(&self, f: &mut fmt::Formatter<W>) -> fmt::Result {
        match self {
            PlanError::Memory(error) => write!(f, "{error}"),
            PlanError::Text(fault) => write!(f, "{fault}"),
            PlanError::Search(fault) => write!(f, "{}", fault.cause()),
        }
    }
}

// Reads a task text, solves its task in the memory lent, and writes the plan into the buffer.
fn plan_in(space: &mut Workspace, text: &[u8], buffer: &mut [u8]) -> Result<Solution, PlanError>
    ensures { Made space.old → Answered text.now buffer.old result buffer.new }
{
    let task = space.records.read(text)?;
    let numbers: [u8; 32] = array::from_fn(|i| i as u8);
    let (first, rest) = numbers.split_at(pattern_length(&task, 0));
    let second = &rest[..pattern_length(&task, first.len())];
    let mut estimator = Partition::new(
        space.left.projection(first),
        space.right.projection(second),
    );
    let count = task.operator_count().min(space.prices.len());
    let mut search = space.search.open(task);
    let row = &mut space.prices[..count];
    Ok(solve(&mut search, row, &mut estimator, buffer)?)
}

// Reads a task text, solves its task, and writes the plan into the buffer.
pub fn plan(heap: Global, text: &[u8], buffer: &mut [u8]) -> Result<Solution, PlanError>
    ensures answer { Answered text.now buffer.old result buffer.new }
    ensures within { IfOk result (Within (length buffer.new)) }
{
    let mut space = Workspace::new(heap)?;
    plan_in(&mut space, text, buffer)
}
