ghost use Rattle.std.specs.Prelude.{◌≡◌};
ghost use Rattle.layers.specs.Layer.{Unset};
ghost use Rattle.layers.specs.Maximum.{greater};
ghost use Rattle.layers.specs.Maximum as meanings;
ghost use Rattle.layers.specs.Same.{Same};
ghost use Rattle.layers.specs.Lawful.Maximum.{greater-laws};

use super::layer::Layer;
use super::price_table::PriceTable;
use super::rule::Rule;
use estimator::estimator::Estimator;
use estimator::fault::SetFault;
use task::task::Task;

// Offers two estimators the same price row, and answers the greater of their answers.
pub type Maximum<F, G> = Layer<Greater, F, G>;

// The maximum of two estimators, unset.
pub fn maximum<F: Estimator, G: Estimator>(first: F, second: G) -> Maximum<F, G>
    ensures unset { Unset result }
    ensures below { (result.first ≡ first) × (result.second ≡ second) }
    ensures meaning { Same ⟦<Maximum<F, G> as Estimator>⟧.meaning (meanings.maximum F.meaning G.meaning) }
{
    Layer::new(first, second)
}

// The rule of the maximum.
#[derive(Drop)]
pub struct Greater;

impl Rule for Greater {
    const KIND: u8 = 3;

    ghost KIND = { 3 };

    ghost terms = { greater };

    ghost laws = { greater-laws };

    fn set_second<G: Estimator>(
        second: &mut G,
        table: &mut PriceTable,
        task: &Task<'_>,
        row: &mut [u32],
        layer: u16,
    ) -> Result<(), SetFault> {
        table.swap(row);
        second.set(task, row, layer)?;
        table.leave_lesser(row);
        Ok(())
    }

    fn answer(first: u32, second: u32) -> u32 {
        first.max(second)
    }
}
