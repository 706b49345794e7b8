ghost use Rattle.estimator.specs.Blind.{Unset, blind};
ghost use Rattle.estimator.specs.Lawful.Blind.{blind-laws};

use super::estimator::Estimator;
use super::fault::SetFault;
use super::row::is_offer;
use tables::cause::Cause;
use task::task::Task;

// Holds 0 for every operator, and answers 0.
#[derive(Drop)]
pub struct Blind {
    // A flag and no Option, since a blind estimator that is set has nothing that an unset one has not.
    ready: bool,
}

impl Blind {
    // An unset one.
    pub fn new() -> Blind
        ensures { Unset result }
    {
        Blind { ready: false }
    }
}

impl Estimator for Blind {
    const KIND: u8 = 1;

    ghost meaning = { blind };

    ghost laws = { blind-laws };

    fn set(&mut self, task: &Task<'_>, row: &mut [u32], layer: u16) -> Result<(), SetFault> {
        self.ready = is_offer(task, row);
        if !self.ready {
            return Err(SetFault::new(Cause::Row, Self::KIND, layer));
        }
        Ok(())
    }

    fn estimate(&mut self, _task: &Task<'_>, _state: &[u8]) -> Option<u32> {
        Some(0)
    }
}
