ghost use Rattle.projection.specs.Open.{Open};
ghost use Rattle.projection.specs.Lawful.Open.{open-prop};

use queue::Queue;
use queue::entries::RankEntry;

// The distances of an abstract task while they are computed: an entry for each rank, and the ranks from which a step may lower
// another entry. The abstract task is no field, so that no contract has to say that a call leaves it as it was.
#[derive(Drop)]
pub(crate) struct Distances<'a> {
    pub table: &'a mut [u32],
    pub queue: Queue<'a, RankEntry>,
    pub ghost open: { Open table.now queue } by { open-prop table.now queue },
}
