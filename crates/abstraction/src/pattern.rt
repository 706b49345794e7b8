// Patterns, and how many abstract states they have.
ghost use Rattle.std.specs.Prelude.{◌≡◌, ℕ, ◌<◌, ◌≤◌, min, length, MatchBool};
ghost use Rattle.task.specs.Model.{model};
ghost use Rattle.abstraction.specs.Projected.{sizes};
ghost use Rattle.abstraction.specs.Ranks.{product};
ghost use Rattle.abstraction.specs.Patterns.{Listed, Rising, IsPattern};

use task::task::Task;

// Whether each number of the row is that of a variable of the task.
fn is_listed(task: &Task<'_>, pattern: &[u8]) -> bool
    ensures { MatchBool result (Listed (model task.now) pattern.now) (Listed (model task.now) pattern.now → ⊥) }
{
    pattern
        .iter()
        .all(|&variable| usize::from(variable) < task.variables.len())
}

// Whether each number of the row is above the one before it.
fn rises(pattern: &[u8]) -> bool
    ensures { MatchBool result (Rising pattern.now) (Rising pattern.now → ⊥) }
{
    pattern.is_sorted_by(|before, after| before < after)
}

// Whether the row is a pattern of the task: at most 8 of its variables, rising.
pub fn is_pattern(task: &Task<'_>, pattern: &[u8]) -> bool
    ensures { MatchBool result (IsPattern (model task.now) pattern.now) (IsPattern (model task.now) pattern.now → ⊥) }
{
    pattern.len() <= 8 && is_listed(task, pattern) && rises(pattern)
}

// How many abstract states a pattern has, cut at the largest number of 32 bits.
pub fn rank_count(task: &Task<'_>, pattern: &[u8]) -> u32
    ensures { result ≡ min (product (sizes (model task.now) pattern.now)) 4294967295 }
{
    pattern.iter().fold(1, |count: u32, &variable| {
        count.saturating_mul(u32::from(task.domain(usize::from(variable))))
    })
}
