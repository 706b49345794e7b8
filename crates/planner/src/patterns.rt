// The patterns of the program's projections: each takes the next variables while it has few of them and few ranks.
ghost use Rattle.std.specs.Prelude.{◌≡◌, ℕ, ◌+◌, ◌≤◌, length, drop};
ghost use Rattle.task.specs.Model.{model};
ghost use Rattle.planner.specs.Patterns.{taken};

use task::task::Task;

// How many variables, from that one on, a pattern takes: while they are at most 8 and have at most 4,096 ranks.
pub fn pattern_length(task: &Task<'_>, first: usize) -> usize
    ensures taken { result ≡ taken 8 1 (drop first (model task.now).domains) }
    ensures few { result ≤ 8 }
    ensures within { first ≤ length (model task.now).domains → first + result ≤ length (model task.now).domains }
{
    task.variables
        .iter()
        .skip(first)
        .take(8)
        .scan(1u32, |ranks, variable| {
            *ranks = ranks.saturating_mul(u32::from(variable.domain));
            Some(*ranks)
        })
        .take_while(|ranks| *ranks <= 4096)
        .count()
}
