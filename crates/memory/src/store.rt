// Changes of the memory, each as one change of the row of nodes.
ghost use Rattle.std.specs.Prelude.{◌≡◌, ℕ, ◌+◌, ◌*◌, ◌<◌, ◌≤◌, List, [], ◌∷◌, ◌++◌, length, Some as Given, None as Absent, MatchBool, MatchOption, slice_index, slice_set};
ghost use Rattle.task.specs.Model.{model, IsGoal};
ghost use Rattle.plain.specs.Plain.{new_node, node as node_at, Least, Queued};
ghost use Rattle.memory.specs.Index.{Vacant};
ghost use Rattle.memory.specs.Rows.{Consistent, Untouched, nodes_of, state_at, TakenFirst};

use crate::memory::Memory;
use crate::node::Node;
use queue::entries::SearchEntry;
use task::task::Task;

impl<'a> Memory<'a> {
    // The state of node k.
    pub fn state(&self, node: usize) -> &[u8]
        requires consistent { Consistent self.now }
        requires inside { node < self.now.held }
        ensures { result.now ≡ state_at self.now node }
    {
        let at = node * self.variables;
        &self.states[at..at + self.variables]
    }

    // A node more, with its entry in the open list where it has an estimate. The word of the index at `at` is the free
    // one for its state.
    pub fn add(&mut self, at: usize, state: &[u8], new: Node, estimate: Option<u32>)
        requires consistent { Consistent self.old }
        requires capacity { self.old.held < self.old.capacity }
        requires width { length state.now ≡ self.old.variables }
        requires vacant { Vacant self.old.index.now state.now at }
        ensures consistent { Consistent self.new }
        ensures untouched { Untouched self.old self.new }
        ensures held { self.new.held ≡ self.old.held + 1 }
        ensures nodes { nodes_of self.new ≡ nodes_of self.old ++ new_node state.now new.g new.parent new.operator estimate ∷ [] }
    {
        let node = self.held;
        let from = node * self.variables;
        self.states[from..from + state.len()].copy_from_slice(state);
        self.index[at] = node as u32 + 1;
        self.held = node + 1;
        self.set_node(node, new, estimate);
    }

    // Gives a held node its record. Its entry in the open list becomes the one of the estimate; without an estimate it
    // has none.
    pub fn set_node(&mut self, node: usize, new: Node, estimate: Option<u32>)
        requires consistent { Consistent self.old }
        requires inside { node < self.old.held }
        ensures consistent { Consistent self.new }
        ensures untouched { Untouched self.old self.new }
        ensures held { self.new.held ≡ self.old.held }
        ensures nodes { nodes_of self.new ≡ slice_set (nodes_of self.old) node (new_node (node_at (nodes_of self.old) node).state new.g new.parent new.operator estimate) }
    {
        self.nodes[node] = new;
        match estimate {
            Some(estimate) => {
                let f = new.g as u64 + estimate as u64;
                let _ = self.queue.put(SearchEntry {
                    f,
                    estimate,
                    node: node as u32,
                });
            }
            None => self.queue.drop_item(node as u32),
        }
    }

    // Copies the state of node k.
    pub fn load(&self, node: usize, out: &mut [u8])
        requires consistent { Consistent self.now }
        requires inside { node < self.now.held }
        requires width { length out.old ≡ self.now.variables }
        ensures { out.new ≡ state_at self.now node }
    {
        out.copy_from_slice(self.state(node));
    }

    // Whether node k has a goal state.
    pub fn at_goal(&self, task: &Task<'_>, node: usize) -> bool
        requires consistent { Consistent self.now }
        requires inside { node < self.now.held }
        requires variables { self.now.variables ≡ length task.now.variables.now }
        ensures { MatchBool result (IsGoal (model task.now) (state_at self.now node)) (IsGoal (model task.now) (state_at self.now node) → ⊥) }
    {
        task.has_goal(self.state(node))
    }

    // Takes the first entry of the open list out.
    pub fn take_least(&mut self) -> Option<SearchEntry>
        requires { Consistent self.old }
        ensures consistent { Consistent self.new }
        ensures untouched { Untouched self.old self.new }
        ensures held { self.new.held ≡ self.old.held }
        ensures taken { MatchOption result (((k h : ℕ) → Queued (nodes_of self.old) k h → ⊥) × (nodes_of self.new ≡ nodes_of self.old)) (λ e. TakenFirst (nodes_of self.old) e (nodes_of self.new)) }
    {
        self.queue.take()
    }
}
