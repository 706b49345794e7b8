ghost use Rattle.std.specs.Prelude.{◌≡◌, ℕ, ◌<◌, ◌≤◌, length, MatchOption};
ghost use Rattle.projection.specs.Projection.{weighed, Known};

// The rank that the weights give a row: the sum of each pattern variable's value times its weight. None where the row lacks
// a variable of the pattern, or that has more than 8.
pub(crate) fn rank_in(pattern: &[u8], weights: &[u32], state: &[u8]) -> Option<u64>
    requires { length weights.now ≡ 8 }
    ensures { MatchOption result (Known pattern.now state.now → ⊥) (λ n. Known pattern.now state.now × (n ≡ weighed pattern.now weights.now state.now (length pattern.now))) }
{
    if pattern.len() > 8 {
        return None;
    }
    let mut rank: u64 = 0;
    for (&variable, &weight) in pattern.iter().zip(weights) {
        let value = *state.get(usize::from(variable))?;
        rank += u64::from(value) * u64::from(weight);
    }
    Some(rank)
}
