ghost use Rattle.std.specs.Prelude.{◌≡◌, ℕ, ◌+◌, ◌<◌, ◌≤◌, length, take, drop, slice_index};
ghost use Rattle.task.specs.Model.{model};
ghost use Rattle.estimator.specs.Price.{Offer};
ghost use Rattle.abstraction.specs.Patterns.{IsPattern};
ghost use Rattle.abstraction.specs.Projected.{sizes, projected};
ghost use Rattle.abstraction.specs.Ranks.{product};
ghost use Rattle.projection.specs.Distances.{IsTable};
ghost use Rattle.projection.specs.Saturating.{LeavesHeld};

use super::dijkstra::fill_distances;
use super::saturate::saturate;
use abstraction::abstract_task::AbstractTask;
use abstraction::pattern::rank_count;
use queue::entries::RankEntry;
use task::task::Task;

// Fills the entries of the pattern's ranks, takes the held prices off the row and answers the pattern's weights. The table
// beyond the ranks stays.
pub(crate) fn compute(
    table: &mut [u32],
    entries: &mut [RankEntry],
    places: &mut [u32],
    task: &Task<'_>,
    row: &mut [u32],
    pattern: &[u8],
) -> [u32; 8]
    requires offer { Offer (model task.now) row.old }
    requires pattern { IsPattern (model task.now) pattern.now }
    requires few { product (sizes (model task.now) pattern.now) ≤ 65536 }
    requires table { product (sizes (model task.now) pattern.now) ≤ length table.old }
    requires entries { product (sizes (model task.now) pattern.now) ≤ length entries.old }
    requires places { product (sizes (model task.now) pattern.now) ≤ length places.old }
    ensures table { IsTable (projected (model task.now) pattern.now) row.old (take (product (sizes (model task.now) pattern.now)) table.new) }
    ensures rest { drop (product (sizes (model task.now) pattern.now)) table.new ≡ drop (product (sizes (model task.now) pattern.now)) table.old }
    ensures held { LeavesHeld (projected (model task.now) pattern.now) (take (product (sizes (model task.now) pattern.now)) table.new) row.old row.new }
    ensures weights { (i : ℕ) → i < length pattern.now → slice_index result i ≡ product (drop (i + 1) (sizes (model task.now) pattern.now)) }
{
    let abstract_task = AbstractTask::new(task, pattern);
    let count = rank_count(task, pattern) as usize;
    let distances = &mut table[0..count];
    fill_distances(distances, entries, places, &abstract_task, row);
    saturate(distances, &abstract_task, row);
    abstract_task.weights()
}
