ghost use Rattle.std.specs.Prelude.{◌≡◌};
ghost use Rattle.layers_tests.specs.Leaf.{Unset, leaf};
ghost use Rattle.layers_tests.specs.Lawful.Leaf.{leaf-laws};

use estimator::estimator::Estimator;
use estimator::fault::SetFault;
use estimator::row::is_offer;
use tables::cause::Cause;
use task::task::Task;

// Takes every price that it is offered, or refuses every set with TABLE; it answers 0.
#[derive(Drop)]
pub struct Leaf {
    refuses: bool,
    // A flag and no Option, since a leaf that is set has nothing that an unset one has not.
    ready: bool,
}

impl Leaf {
    // An unset one, which refuses or accepts.
    pub fn new(refuses: bool) -> Leaf
        ensures { Unset result × (result.refuses ≡ refuses) }
    {
        Leaf {
            refuses,
            ready: false,
        }
    }
}

impl Estimator for Leaf {
    const KIND: u8 = 9;

    ghost meaning = { leaf };

    ghost laws = { leaf-laws };

    fn set(&mut self, task: &Task<'_>, row: &mut [u32], layer: u16) -> Result<(), SetFault> {
        self.ready = false;
        if !is_offer(task, row) {
            return Err(SetFault::new(Cause::Row, Self::KIND, layer));
        }
        if self.refuses {
            return Err(SetFault::new(Cause::Table, Self::KIND, layer));
        }
        row.fill(0);
        self.ready = true;
        Ok(())
    }

    fn estimate(&mut self, _task: &Task<'_>, _state: &[u8]) -> Option<u32> {
        Some(0)
    }
}
