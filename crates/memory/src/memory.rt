use crate::node::Node;
use queue::Queue;
use queue::entries::SearchEntry;

// The held states, in lent memory: a record and a row of bytes for each, an index of the rows, and the open list.
//
// The calls ask for `Consistent` and give it back. A ghost field would have to hold between the writes of one change; and
// an impl Model would show its owner the fields without this fact, on which the owner's own invariant rests.
// That the task has as many variables is asked too: no type of this crate holds both, as the search above does.
#[derive(Drop)]
pub struct Memory<'a> {
    pub nodes: &'a mut [Node],
    pub states: &'a mut [u8],
    pub index: &'a mut [u32],
    pub queue: Queue<'a, SearchEntry>,
    pub variables: usize,
    pub capacity: usize,
    pub held: usize,
}
