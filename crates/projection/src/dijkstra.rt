// The distances, by Dijkstra's algorithm backwards from the abstract goal states.
ghost use Rattle.std.specs.Prelude.{◌≡◌, ℕ, ◌<◌, ◌≤◌, List, length, None};
ghost use Rattle.queue.specs.Content.{content};
ghost use Rattle.queue.specs.Entries.{rank_item};
ghost use Rattle.abstraction.specs.Ranks.{product};
ghost use Rattle.abstraction.specs.AbstractTasks.{abstract_of};
ghost use Rattle.projection.specs.Dijkstra.{Running, NoneLeft, LeftFrom, Settled, Later};

use super::distances::Distances;
use super::relax::StepsTo;
use abstraction::abstract_task::AbstractTask;
use queue::Queue;
use queue::entries::RankEntry;

impl Distances<'_> {
    // Starts the distances: 0 for each abstract goal state, which is queued, and none for the others.
    fn seed(&mut self, abstract_task: &AbstractTask<'_>)
        requires none { (k : ℕ) → content rank_item self.old.queue k ≡ None }
        requires long { length self.old.table.now ≡ product (abstract_of abstract_task.now).domains }
        ensures running { (row : List ℕ) → Running (abstract_of abstract_task.now) row NoneLeft self.new }
        ensures same { self.new.table.ghost_name ≡ self.old.table.ghost_name }
    {
        self.table.fill(u32::MAX);
        let count = self.table.len() as u32;
        for rank in 0..count {
            let digits = abstract_task.state_of(rank);
            if abstract_task.is_goal(&digits[..abstract_task.pattern.len()]) {
                self.lower(rank, 0);
            }
        }
    }

    // Lowers the entries of the ranks from which any operator leads to a rank.
    fn expand(&mut self, abstract_task: &AbstractTask<'_>, row: &[u32], rank: u32)
        requires running { Running (abstract_of abstract_task.now) row.now (LeftFrom rank 0) self.old }
        requires row { length row.now ≡ length (abstract_of abstract_task.now).operators }
        requires rank { rank < length self.old.table.now }
        ensures running { Running (abstract_of abstract_task.now) row.now NoneLeft self.new }
        ensures later { Later self.old self.new }
    {
        let digits = abstract_task.state_of(rank);
        let state = &digits[..abstract_task.pattern.len()];
        for (operator, &price) in row.iter().enumerate() {
            if abstract_task.may_lead_to(operator, state) {
                let distance = self.table[rank as usize].saturating_add(price);
                let steps = StepsTo {
                    abstract_task: &*abstract_task,
                    operator,
                    state,
                    distance,
                };
                self.relax(&steps, 0, 0);
            }
        }
    }

    // Expands the rank of the least entry, until none is queued.
    fn expand_all(&mut self, abstract_task: &AbstractTask<'_>, row: &[u32])
        requires running { Running (abstract_of abstract_task.now) row.now NoneLeft self.old }
        requires row { length row.now ≡ length (abstract_of abstract_task.now).operators }
        ensures settled { Settled (abstract_of abstract_task.now) row.now self.new.table.now }
        ensures same { self.new.table.ghost_name ≡ self.old.table.ghost_name }
    {
        while let Some(entry) = self.queue.take() {
            self.expand(abstract_task, row, entry.rank);
        }
    }
}

// Fills a table of one entry a rank with the distances.
pub(crate) fn fill_distances(
    table: &mut [u32],
    entries: &mut [RankEntry],
    places: &mut [u32],
    abstract_task: &AbstractTask<'_>,
    row: &[u32],
)
    requires row { length row.now ≡ length (abstract_of abstract_task.now).operators }
    requires long { length table.old ≡ product (abstract_of abstract_task.now).domains }
    requires entries { length table.old ≤ length entries.old }
    requires places { length table.old ≤ length places.old }
    ensures { Settled (abstract_of abstract_task.now) row.now table.new }
{
    let queue = Queue::new(entries, places);
    let mut distances = Distances { table, queue };
    distances.seed(abstract_task);
    distances.expand_all(abstract_task, row);
    // Taken apart, so that the table is known to be what they left.
    let Distances {
        table: _table,
        queue: _queue,
    } = distances;
}
