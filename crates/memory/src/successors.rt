// The successors of a node. Task and estimator stay two parameters: the owner of the memory owns the one, and borrows the
// other for a call.
ghost use Rattle.std.specs.Prelude.{◌≡◌, ℕ, ◌+◌, ◌*◌, ◌^◌, ◌<◌, ◌≤◌, length, IfOk, MatchResult, slice_index};
ghost use Rattle.task.specs.Model.{model, prices, dearest};
ghost use Rattle.plain.specs.Plain.{NotHeld, Generates};
ghost use Rattle.memory.specs.Rows.{Consistent, Untouched, nodes_of, record_at, state_at};
ghost use Rattle.memory.specs.Steps.{NoRoom, CostsBounded, Reaches};
ghost use Rattle.memory.specs.Expanded.{ExpandsTo};

use crate::full::Full;
use crate::index::Lookup;
use crate::memory::Memory;
use crate::node::Node;
use estimator::estimator::Estimator;
use task::task::Task;

impl<'a> Memory<'a> {
    // Holds a state that came by this record, if it is new or cheaper than known; refused where a new one finds no room.
    pub fn reach<E: Estimator>(
        &mut self,
        task: &Task<'_>,
        estimator: &mut E,
        state: &[u8],
        new: Node,
    ) -> Result<(), Full>
        requires consistent { Consistent self.old }
        requires width { length state.now ≡ self.old.variables }
        ensures consistent { Consistent self.new }
        ensures untouched { Untouched self.old self.new }
        ensures reached { MatchResult result (λ _. Reaches E.meaning (model task.now) self.old.capacity state.now new.g new.parent new.operator (nodes_of self.old) estimator.old (nodes_of self.new) estimator.new) (λ full. (full.operator ≡ new.operator) × NotHeld (nodes_of self.old) state.now × (self.old.capacity ≤ self.old.held) × (self.new ≡ self.old) × (estimator.new ≡ estimator.old)) }
    {
        match self.look_up(state) {
            Lookup::Held(node) if self.nodes[node].g <= new.g => Ok(()),
            Lookup::Held(node) => {
                let estimate = estimator.estimate(task, state);
                self.set_node(node, new, estimate);
                Ok(())
            }
            Lookup::Free(at) if self.held < self.capacity => {
                let estimate = estimator.estimate(task, state);
                self.add(at, state, new, estimate);
                Ok(())
            }
            Lookup::Free(_) | Lookup::Crowded => Err(Full {
                operator: new.operator,
            }),
        }
    }

    // Applies an operator to a node, whose state the row holds before and after, and holds the successor.
    pub fn generate<E: Estimator>(
        &mut self,
        task: &Task<'_>,
        estimator: &mut E,
        row: &mut [u8],
        node: usize,
        operator: usize,
    ) -> Result<(), Full>
        requires consistent { Consistent self.old }
        requires inside { node < self.old.held }
        requires row { row.old ≡ state_at self.old node }
        requires variables { self.old.variables ≡ length task.now.variables.now }
        requires number { operator ≤ 65535 }
        requires fits { (record_at self.old node).g + slice_index (prices (model task.now)) operator < 2 ^ 32 }
        ensures consistent { Consistent self.new }
        ensures untouched { Untouched self.old self.new }
        ensures row { IfOk result (λ _. row.new ≡ state_at self.new node) }
        ensures tried { MatchResult result (λ _. Generates E.meaning (model task.now) self.old.capacity node operator (nodes_of self.old) estimator.old (nodes_of self.new) estimator.new) (λ full. (full.operator ≡ operator) × NoRoom (model task.now) self.old.capacity node operator (nodes_of self.old) × (self.new ≡ self.old) × (estimator.new ≡ estimator.old)) }
    {
        if !task.apply_to_row(operator, row) {
            return Ok(());
        }
        let new = Node {
            g: self.nodes[node].g + task.price(operator),
            parent: node as u32,
            operator: operator as u16,
        };
        self.reach(task, estimator, row, new)?;
        self.load(node, row);
        Ok(())
    }

    // Applies the operators to a node in file order, up to one that leads to a new state without room.
    pub fn expand<E: Estimator>(
        &mut self,
        task: &Task<'_>,
        estimator: &mut E,
        node: usize,
    ) -> Result<(), Full>
        requires consistent { Consistent self.old }
        requires inside { node < self.old.held }
        requires variables { self.old.variables ≡ length task.now.variables.now }
        requires low { CostsBounded (model task.now) (nodes_of self.old) }
        ensures consistent { Consistent self.new }
        ensures untouched { Untouched self.old self.new }
        ensures expanded { ExpandsTo E.meaning (model task.now) self.old.capacity node (nodes_of self.old) estimator.old result (nodes_of self.new) estimator.new }
    {
        let mut bytes = [0u8; 32];
        let row = &mut bytes[..self.variables];
        self.load(node, row);
        for operator in 0..task.operator_count() {
            self.generate(task, estimator, row, node, operator)?;
        }
        Ok(())
    }
}
