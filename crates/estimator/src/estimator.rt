ghost use Rattle.task.specs.Model.{model};
ghost use Rattle.estimator.specs.Laws.{Meaning, Laws};

use super::fault::SetFault;
use task::task::Task;

// What bounds the cost of every plan from a state from below. Its meaning is unset, set on a task with a held price
// row, or spoilt, which is neither.
pub trait Estimator {
    // The kind number, which its faults carry.
    const KIND: u8;

    // When it is unset or set, and what its two calls do.
    ghost meaning: { Meaning Self };

    // What every estimator keeps to, whatever it is and holds.
    ghost laws: { Laws meaning };

    // Sets it on the task. Accepted, it takes what it holds out of the price row; refused, it is unset and the row stands.
    fn set(&mut self, task: &Task<'_>, row: &mut [u32], layer: u16) -> Result<(), SetFault>
        ensures { meaning.sets self.old (model task.now) row.old layer result row.new self.new };

    // A lower bound, at held prices, on the cost of every plan from the state; None only where no plan starts.
    fn estimate(&mut self, task: &Task<'_>, state: &[u8]) -> Option<u32>
        ensures { meaning.answers self.old (model task.now) state.now result self.new };
}
