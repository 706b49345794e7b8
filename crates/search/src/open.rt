// Opening a search, and reading its bound.
ghost use Rattle.std.specs.Prelude.{◌≡◌, length};
ghost use Rattle.task.specs.Model.{model};
ghost use Rattle.plain.specs.Plain.{opened};
ghost use Rattle.memory.specs.Capacity.{Capacity};
ghost use Rattle.search.specs.Search.{plain_of};

use crate::inner::{Core, Status};
use crate::search::Search;
use memory::memory::Memory;
use memory::node::Node;
use memory::opening::Lent;
use queue::entries::SearchEntry;
use task::task::Task;

impl<'a> Search<'a> {
    // A search that was not started. Node records and state bytes stay as they are.
    pub fn open(
        task: Task<'a>,
        nodes: &'a mut [Node],
        states: &'a mut [u8],
        index: &'a mut [u32],
        entries: &'a mut [SearchEntry],
        places: &'a mut [u32],
    ) -> Search<'a>
        ensures fresh { plain_of result.core ≡ opened }
        ensures task { result.task ≡ task.entry }
        ensures nodes { result.core.memory.nodes.now ≡ nodes.old }
        ensures states { result.core.memory.states.now ≡ states.old }
        ensures capacity { Capacity (length nodes.old) (length states.old) (length index.old) (length entries.old) (length places.old) (length (model task.entry).domains) result.core.memory.capacity }
    {
        let lent = Lent {
            nodes,
            states,
            index,
            entries,
            places,
        };
        let memory = Memory::open(lent, task.variables.len());
        let core = Core {
            memory,
            status: Status::Fresh,
            bound: 0,
            total: 0,
        };
        Search { task, core }
    }

    // No plan costs less.
    pub fn bound(&self) -> u64
        ensures { result ≡ self.now.core.bound }
    {
        self.core.bound
    }
}
