ghost use Rattle.std.specs.Prelude.{◌≡◌};
ghost use Rattle.layers.specs.Layer.{Unset, both, layer};
ghost use Rattle.layers.specs.Lawful.Layer.{layer-laws};

use super::below::below;
use super::price_table::PriceTable;
use super::rule::Rule;
use estimator::estimator::Estimator;
use estimator::fault::SetFault;
use estimator::row::is_offer;
use std::marker::PhantomData;
use tables::cause::Cause;
use task::task::Task;

// Puts two estimators of any kind together by a rule.
#[derive(Drop)]
pub struct Layer<R, F, G> {
    // A flag and no Option, since an unset layer has its table and its two estimators as well.
    ready: bool,
    table: PriceTable,
    first: F,
    second: G,
    rule: PhantomData<R>,
}

impl<R, F, G> Layer<R, F, G> {
    // A layer over two estimators, unset.
    pub fn new(first: F, second: G) -> Layer<R, F, G>
        ensures unset { Unset result }
        ensures below { (result.first ≡ first) × (result.second ≡ second) }
    {
        Layer {
            ready: false,
            table: PriceTable::new(),
            first,
            second,
            rule: PhantomData,
        }
    }
}

impl<R: Rule, F: Estimator, G: Estimator> Estimator for Layer<R, F, G> {
    const KIND: u8 = R::KIND;

    ghost meaning = { layer R.KIND R.terms F.meaning G.meaning };

    ghost laws = { layer-laws R.Rule.laws F.Estimator.laws G.Estimator.laws };

    fn set(&mut self, task: &Task<'_>, row: &mut [u32], layer: u16) -> Result<(), SetFault> {
        self.ready = false;
        if !is_offer(task, row) {
            return Err(SetFault::new(Cause::Row, R::KIND, layer));
        }
        self.table.keep(row);
        self.first.set(task, row, below(layer, 0))?;
        R::set_second(
            &mut self.second,
            &mut self.table,
            task,
            row,
            below(layer, 1),
        )?;
        self.ready = true;
        Ok(())
    }

    fn estimate(&mut self, task: &Task<'_>, state: &[u8]) -> Option<u32> {
        if !self.ready {
            return Some(0);
        }
        let first = self.first.estimate(task, state);
        let second = self.second.estimate(task, state);
        joined::<R>(first, second)
    }
}

// What two answers give by a rule, absent where either is.
fn joined<R: Rule>(first: Option<u32>, second: Option<u32>) -> Option<u32>
    ensures { result ≡ both R.terms.answer first second }
{
    Some(R::answer(first?, second?))
}
