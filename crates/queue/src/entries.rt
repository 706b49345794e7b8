// The entries of the search's open list and of the distances in a projection.
ghost use Rattle.queue.specs.Entries.{search_item, search_no_later, rank_item, rank_no_later};
ghost use Rattle.std.proofs.Common.{rules};

use crate::QueueEntry;

// A node of the search that waits for its expansion; f is its path cost plus its estimate.
#[derive(Clone, Copy, Default, PartialEq, Eq, PartialOrd, Ord)]
pub struct SearchEntry {
    pub f: u64,
    pub estimate: u32,
    pub node: u32,
}

impl QueueEntry for SearchEntry {
    ghost item_of = { search_item };

    ghost no_later = { search_no_later };

    ghost matches_cmp = { Prim.search rules };

    ghost no_ties = { Prim.search rules };

    fn item(&self) -> u32 {
        self.node
    }
}

// An abstract state by its rank, with the least known cost from it to an abstract goal.
#[derive(Clone, Copy, Default, PartialEq, Eq, PartialOrd, Ord)]
pub struct RankEntry {
    pub distance: u32,
    pub rank: u32,
}

impl QueueEntry for RankEntry {
    ghost item_of = { rank_item };

    ghost no_later = { rank_no_later };

    ghost matches_cmp = { Prim.search rules };

    ghost no_ties = { Prim.search rules };

    fn item(&self) -> u32 {
        self.rank
    }
}
