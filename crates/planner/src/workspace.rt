// The memory that planning a text takes: records of every task, a search of 2,048 states, and two projections.
ghost use Rattle.std.specs.Prelude.{◌≡◌, IfOk, length, vec_len};
ghost use Rattle.task.specs.Model.{model};
ghost use Rattle.plain.specs.Plain.{opened};
ghost use Rattle.memory.specs.Capacity.{Capacity};
ghost use Rattle.search.specs.Search.{plain_of};
ghost use Rattle.reader.specs.Loading.{Read};
ghost use Rattle.planner.specs.Space.{AllRecords, Roomy, Made};

use memory::node::Node;
use projection::projection::Projection;
use queue::entries::{RankEntry, SearchEntry};
use reader::load::read;
use search::search::Search;
use std::alloc::{AllocError, Global};
use tables::fault::Fault;
use tables::records::{Entry, Operator, Variable};
use task::task::Task;

// How many variables, operators and entries a task has at most.
const VARIABLES: usize = 32;

const OPERATORS: usize = 256;

const ENTRIES: usize = 4096;

// How many states the search holds, and how many ranks a projection has at most.
const STATES: usize = 2048;

const RANKS: usize = 4096;

// All the memory that planning a text takes.
#[derive(Drop)]
pub(crate) struct Workspace {
    pub records: Records,
    pub search: SearchSpace,
    pub prices: Vec<u32>,
    pub left: RankSpace,
    pub right: RankSpace,
}

impl Workspace {
    pub(crate) fn new(heap: Global) -> Result<Workspace, AllocError>
        ensures { IfOk result Made }
    {
        let records = Records::new(heap)?;
        let search = SearchSpace::new(heap)?;
        // Taken between the larger parts: were it taken first, the C library's allocator would give all of them back to the
        // system after each planning, and ask for them again at the next.
        let prices = vec![in heap; 0u32; OPERATORS]?;
        Ok(Workspace {
            records,
            search,
            prices,
            left: RankSpace::new(heap)?,
            right: RankSpace::new(heap)?,
        })
    }
}

// Records for every task.
#[derive(Drop)]
pub(crate) struct Records {
    pub variables: Vec<Variable>,
    pub operators: Vec<Operator>,
    pub entries: Vec<Entry>,
}

impl Records {
    pub(crate) fn new(heap: Global) -> Result<Records, AllocError>
        ensures { IfOk result AllRecords }
    {
        let variables = vec![in heap; Variable::ZERO; VARIABLES]?;
        let operators = vec![in heap; Operator::ZERO; OPERATORS]?;
        let entries = vec![in heap; Entry::ZERO; ENTRIES]?;
        Ok(Records {
            variables,
            operators,
            entries,
        })
    }

    // Reads the text into the records and answers its task.
    pub(crate) fn read<'a>(&'a mut self, text: &'a [u8]) -> Result<Task<'a>, Fault>
        ensures { Read text.now (vec_len self.old.variables) (vec_len self.old.operators) (vec_len self.old.entries) result }
    {
        read(
            text,
            &mut self.variables,
            &mut self.operators,
            &mut self.entries,
        )
    }
}

// What a search of 2,048 states stands in.
#[derive(Drop)]
pub(crate) struct SearchSpace {
    nodes: Vec<Node>,
    states: Vec<u8>,
    index: Vec<u32>,
    waiting: Vec<SearchEntry>,
    places: Vec<u32>,
}

impl SearchSpace {
    pub(crate) fn new(heap: Global) -> Result<SearchSpace, AllocError>
        ensures { IfOk result Roomy }
    {
        let nodes = vec![in heap; Node::default(); STATES]?;
        let states = vec![in heap; 0u8; STATES * VARIABLES]?;
        let index = vec![in heap; 0u32; STATES * 2]?;
        let waiting = vec![in heap; SearchEntry::default(); STATES]?;
        let places = vec![in heap; 0u32; STATES]?;
        Ok(SearchSpace {
            nodes,
            states,
            index,
            waiting,
            places,
        })
    }

    // A search of the task in this memory.
    pub(crate) fn open<'a>(&'a mut self, task: Task<'a>) -> Search<'a>
        ensures fresh { plain_of result.core ≡ opened }
        ensures task { result.task ≡ task.entry }
        ensures capacity { Capacity (vec_len self.old.nodes) (vec_len self.old.states) (vec_len self.old.index) (vec_len self.old.waiting) (vec_len self.old.places) (length (model task.entry).domains) result.core.memory.capacity }
    {
        Search::open(
            task,
            &mut self.nodes,
            &mut self.states,
            &mut self.index,
            &mut self.waiting,
            &mut self.places,
        )
    }
}

// What a projection keeps its distances and its queue of ranks in.
#[derive(Drop)]
pub(crate) struct RankSpace {
    table: Vec<u32>,
    ranks: Vec<RankEntry>,
    places: Vec<u32>,
}

impl RankSpace {
    pub(crate) fn new(heap: Global) -> Result<RankSpace, AllocError> {
        let table = vec![in heap; 0u32; RANKS]?;
        let ranks = vec![in heap; RankEntry::default(); RANKS]?;
        let places = vec![in heap; 0u32; RANKS]?;
        Ok(RankSpace {
            table,
            ranks,
            places,
        })
    }

    // A projection to the pattern in this memory, unset.
    pub(crate) fn projection<'a>(&'a mut self, pattern: &'a [u8]) -> Projection<'a> {
        Projection::new(pattern, &mut self.table, &mut self.ranks, &mut self.places)
    }
}
