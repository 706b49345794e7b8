ghost use Rattle.std.specs.Prelude.{◌≡◌, ℕ, ◌≤◌, length, take, MatchResult};
ghost use Rattle.task.specs.Model.{model};
ghost use Rattle.layers.specs.Terms.{Terms, TermsLaws, SecondTakes, SecondRefuses};

use super::price_table::PriceTable;
use estimator::estimator::Estimator;
use estimator::fault::SetFault;
use task::task::Task;

// How a layer shares a price row out to its two estimators, and what it makes of their answers.
pub trait Rule {
    // The kind number of the layers by this rule.
    const KIND: u8;

    ghost KIND: { ℕ };

    // What the second is offered, what is left, and what is held and answered, of what the two leave, hold and answer.
    ghost terms: { Terms };

    // What makes a layer keep the laws of estimators.
    ghost laws: { TermsLaws terms };

    // Sets the second. The row is what the first left of the row offered, which the table keeps. Refused, it is the row offered.
    fn set_second<G: Estimator>(
        second: &mut G,
        table: &mut PriceTable,
        task: &Task<'_>,
        row: &mut [u32],
        layer: u16,
    ) -> Result<(), SetFault>
        requires { length row.old ≤ 256 }
        ensures { let offered = take (length row.old) table.old.prices in
            MatchResult result
            (λ _. SecondTakes terms G.meaning second.old (model task.now) offered row.old layer row.new second.new)
            (λ fault. SecondRefuses terms G.meaning second.old (model task.now) offered row.old layer fault row.new second.new) };

    // What is answered where the two answer these numbers.
    fn answer(first: u32, second: u32) -> u32
        ensures { result ≡ terms.answer first second };
}
