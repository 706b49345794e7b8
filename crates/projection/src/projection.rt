ghost use Rattle.std.specs.Prelude.{◌≡◌};
ghost use Rattle.task.specs.Model.{model};
ghost use Rattle.projection.specs.Distances.{OneMeaning};
ghost use Rattle.projection.specs.Example.{SofaNumbers};
ghost use Rattle.projection.specs.Projection.{Unset, Tests, projection};
ghost use Rattle.projection.specs.Lawful.Projection.{projection-laws};

use super::compute::compute;
use super::entry::distance;
use super::rank::rank_in;
use abstraction::pattern::{is_pattern, rank_count};
use estimator::estimator::Estimator;
use estimator::fault::SetFault;
use estimator::row::is_offer;
use queue::entries::RankEntry;
use tables::cause::Cause;
use task::task::Task;

// Answers the distances of the abstraction of a task to a pattern. Once it is set, it has the weights that give a state's rank.
#[derive(Drop)]
pub struct Projection<'a> {
    pattern: &'a [u8],
    weights: Option<[u32; 8]>,
    table: &'a mut [u32],
    entries: &'a mut [RankEntry],
    places: &'a mut [u32],
}

impl<'a> Projection<'a> {
    // Over a pattern, a lent table and lent queue memory, and unset.
    pub fn new(
        pattern: &'a [u8],
        table: &'a mut [u32],
        entries: &'a mut [RankEntry],
        places: &'a mut [u32],
    ) -> Projection<'a>
        ensures unset { Unset result }
        ensures pattern { result.pattern.now ≡ pattern.now }
        ensures table { result.table.now ≡ table.old }
        ensures entries { result.entries.now ≡ entries.old }
        ensures places { result.places.now ≡ places.old }
        ensures meaning { OneMeaning }
        ensures example { SofaNumbers }
    {
        Projection {
            pattern,
            weights: None,
            table,
            entries,
            places,
        }
    }

    // Whether it can be set on the task with the row: what is wrong with the row, the pattern or the memory, if anything is.
    fn test(&self, task: &Task<'_>, row: &[u32]) -> Result<(), Cause>
        ensures { Tests self.now (model task.now) row.now result }
    {
        if !is_offer(task, row) {
            return Err(Cause::Row);
        }
        if !is_pattern(task, self.pattern) {
            return Err(Cause::Pattern);
        }
        let count = rank_count(task, self.pattern) as usize;
        if count > 65536
            || self.table.len() < count
            || self.entries.len() < count
            || self.places.len() < count
        {
            return Err(Cause::Table);
        }
        Ok(())
    }
}

impl Estimator for Projection<'_> {
    const KIND: u8 = 2;

    ghost meaning = { projection };

    ghost laws = { projection-laws };

    fn set(&mut self, task: &Task<'_>, row: &mut [u32], layer: u16) -> Result<(), SetFault> {
        self.weights = None;
        if let Err(cause) = self.test(task, row) {
            return Err(SetFault::new(cause, Self::KIND, layer));
        }
        let weights = compute(
            self.table,
            self.entries,
            self.places,
            task,
            row,
            self.pattern,
        );
        self.weights = Some(weights);
        Ok(())
    }

    fn estimate(&mut self, task: &Task<'_>, state: &[u8]) -> Option<u32> {
        let Some(weights) = &self.weights else {
            return Some(0);
        };
        if !task.is_state(state) {
            return Some(0);
        }
        let Some(rank) = rank_in(self.pattern, weights, state) else {
            return Some(0);
        };
        if rank >= self.table.len() as u64 {
            return Some(0);
        }
        distance(self.table[rank as usize])
    }
}
