// The lines of a plan, traced back from its last node.
ghost use Rattle.std.specs.Prelude.{◌≡◌, ℕ, ◌+◌, ◌-◌, ◌*◌, ◌^◌, ◌<◌, ◌≤◌, List, length, reverse};
ghost use Rattle.task.specs.Names.{operator_name};
ghost use Rattle.text.specs.Lines.{line};
ghost use Rattle.text.specs.Written.{Prepends};
ghost use Rattle.plain.specs.Plain.{PathTo};
ghost use Rattle.memory.specs.Rows.{Consistent, nodes_of};
ghost use Rattle.memory.specs.Trees.{ParentTree};
ghost use Rattle.memory.specs.Plans.{lines};
ghost use Rattle.memory.specs.Ways.{way_of};

use crate::memory::Memory;
use crate::way::Way;
use task::task::Task;
use text::Tail;

// The name of the operator of that number; past the last one, nothing.
fn name_of<'a>(task: &Task<'a>, operator: usize) -> &'a [u8]
    ensures { result.now ≡ operator_name task.now operator }
{
    task.operator_name(operator).unwrap_or(b"")
}

impl<'a> Memory<'a> {
    // The way back from a node.
    fn way_back(&self, node: usize) -> Way<'_>
        requires consistent { Consistent self.now }
        requires inside { node < self.now.held }
        requires tree { ParentTree (nodes_of self.now) }
        ensures path { (is : List ℕ) × PathTo (nodes_of self.now) node is × (way_of result ≡ reverse is) }
        ensures short { length (way_of result) ≤ self.now.held }
    {
        Way {
            nodes: self.nodes,
            node,
            left: self.held,
        }
    }

    // How many bytes the lines of the path to node x have: more, perhaps, than a slice can.
    pub fn lines_len(&self, task: &Task<'_>, node: usize) -> u128
        requires consistent { Consistent self.now }
        requires inside { node < self.now.held }
        requires tree { ParentTree (nodes_of self.now) }
        ensures path { (is : List ℕ) × PathTo (nodes_of self.now) node is × (result ≡ length (lines (operator_name task.now) is)) }
        ensures low { result ≤ 65535 * 2 ^ 65 }
    {
        let mut len = 0u128;
        for operator in self.way_back(node) {
            len += name_of(task, operator as usize).len() as u128 + 3;
        }
        len
    }

    // Writes the lines of the path to node x before what is written.
    pub fn lines_back(&self, task: &Task<'_>, node: usize, tail: &mut Tail<'_>)
        requires consistent { Consistent self.now }
        requires inside { node < self.now.held }
        requires tree { ParentTree (nodes_of self.now) }
        requires fits { (is : List ℕ) → PathTo (nodes_of self.now) node is → length (lines (operator_name task.now) is) ≤ tail.old.at }
        ensures { (is : List ℕ) × PathTo (nodes_of self.now) node is × Prepends tail.old (lines (operator_name task.now) is) tail.new }
    {
        for operator in self.way_back(node) {
            tail.line(name_of(task, operator as usize));
        }
    }
}
