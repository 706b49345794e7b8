ghost use Rattle.std.specs.Prelude.{◌≡◌};
ghost use Rattle.layers.specs.Layer.{Unset};
ghost use Rattle.layers.specs.Partition.{sum};
ghost use Rattle.layers.specs.Partition as meanings;
ghost use Rattle.layers.specs.Same.{Same};
ghost use Rattle.layers.specs.Lawful.Partition.{sum-laws};

use super::layer::Layer;
use super::price_table::PriceTable;
use super::rule::Rule;
use estimator::estimator::Estimator;
use estimator::fault::SetFault;
use task::task::Task;

// Offers the second estimator what the first leaves, and answers the sum of their answers.
pub type Partition<F, G> = Layer<Sum, F, G>;

// The partition of two estimators, unset.
pub fn partition<F: Estimator, G: Estimator>(first: F, second: G) -> Partition<F, G>
    ensures unset { Unset result }
    ensures below { (result.first ≡ first) × (result.second ≡ second) }
    ensures meaning { Same ⟦<Partition<F, G> as Estimator>⟧.meaning (meanings.partition F.meaning G.meaning) }
{
    Layer::new(first, second)
}

// The rule of the partition.
#[derive(Drop)]
pub struct Sum;

impl Rule for Sum {
    const KIND: u8 = 4;

    ghost KIND = { 4 };

    ghost terms = { sum };

    ghost laws = { sum-laws };

    fn set_second<G: Estimator>(
        second: &mut G,
        table: &mut PriceTable,
        task: &Task<'_>,
        row: &mut [u32],
        layer: u16,
    ) -> Result<(), SetFault> {
        if let Err(fault) = second.set(task, row, layer) {
            table.restore(row);
            return Err(fault);
        }
        Ok(())
    }

    fn answer(first: u32, second: u32) -> u32 {
        first.saturating_add(second)
    }
}
