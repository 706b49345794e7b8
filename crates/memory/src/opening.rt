// Opening: how many nodes the lent memory takes.
ghost use Rattle.std.specs.Prelude.{◌≡◌, ℕ, ◌+◌, ◌*◌, ◌<◌, ◌≤◌, length};
ghost use Rattle.memory.specs.Capacity.{Capacity};
ghost use Rattle.memory.specs.Rows.{Consistent};

use crate::memory::Memory;
use crate::node::Node;
use queue::Queue;
use queue::entries::SearchEntry;

// The parts of memory that a caller lends.
#[derive(Drop)]
pub struct Lent<'a> {
    pub nodes: &'a mut [Node],
    pub states: &'a mut [u8],
    pub index: &'a mut [u32],
    pub entries: &'a mut [SearchEntry],
    pub places: &'a mut [u32],
}

impl<'a> Lent<'a> {
    // The greatest number of nodes, up to 65,535, that all the parts have room for.
    fn capacity(&self, variables: usize) -> usize
        requires { 0 < variables }
        ensures { Capacity (length self.now.nodes.now) (length self.now.states.now) (length self.now.index.now) (length self.now.entries.now) (length self.now.places.now) variables result }
    {
        self.nodes
            .len()
            .min(self.states.len() / variables)
            .min(self.index.len() / 2)
            .min(self.entries.len())
            .min(self.places.len())
            .min(65535)
    }
}

impl<'a> Memory<'a> {
    // No node, in the lent memory.
    pub fn open(lent: Lent<'a>, variables: usize) -> Memory<'a>
        requires { 0 < variables }
        ensures consistent { Consistent result }
        ensures empty { result.held ≡ 0 }
        ensures variables { result.variables ≡ variables }
        ensures nodes { result.nodes.now ≡ lent.entry.nodes.now }
        ensures states { result.states.now ≡ lent.entry.states.now }
        ensures capacity { Capacity (length lent.entry.nodes.now) (length lent.entry.states.now) (length lent.entry.index.now) (length lent.entry.entries.now) (length lent.entry.places.now) variables result.capacity }
    {
        let capacity = lent.capacity(variables);
        let Lent {
            nodes,
            states,
            index,
            entries,
            places,
        } = lent;
        let (words, _) = index.split_at_mut(2 * capacity);
        words.fill(0);
        let queue = Queue::new(entries, places);
        Memory {
            nodes,
            states,
            index: words,
            queue,
            variables,
            capacity,
            held: 0,
        }
    }
}
