ghost use Rattle.std.specs.Prelude.{◌≡◌, ℕ, ◌≤◌, true, length, MatchBool};
ghost use Rattle.task.specs.Model.{model};
ghost use Rattle.estimator.specs.Price.{Offer};

use task::task::Task;

// The highest price.
pub const HIGHEST: u32 = 65535;

// Whether the row is a price row of the task, which a set may be offered.
pub fn is_offer(task: &Task<'_>, row: &[u32]) -> bool
    ensures few { result ≡ true → length row.now ≤ 256 }
    ensures cases { MatchBool result (Offer (model task.now) row.now) (Offer (model task.now) row.now → ⊥) }
{
    row.len() == task.operator_count() && row.iter().all(|price| *price <= HIGHEST)
}
