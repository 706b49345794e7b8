// The held prices: the largest differences of distances over abstract steps.
ghost use Rattle.std.specs.Prelude.{◌≡◌, ℕ, ◌+◌, ◌<◌, ◌≤◌, length, slice_index};
ghost use Rattle.abstraction.specs.Ranks.{product};
ghost use Rattle.abstraction.specs.AbstractTasks.{abstract_of};
ghost use Rattle.projection.specs.Distances.{IsHeld};
ghost use Rattle.projection.specs.Dijkstra.{Settled};
ghost use Rattle.projection.specs.Saturating.{raised, HeldBelow, LeavesHeld};

use super::entry::distance;
use abstraction::abstract_task::AbstractTask;

// The larger of a price and the difference of two entries, if both are distances.
fn larger(price: u32, here: u32, there: u32) -> u32
    ensures { result ≡ raised price here there }
{
    match (distance(here), distance(there)) {
        (Some(here), Some(there)) => price.max(here.saturating_sub(there)),
        _ => price,
    }
}

// Raises each operator's price to the difference along its step from a rank, if it leads on from there.
fn raise(held: &mut [u32], table: &[u32], abstract_task: &AbstractTask<'_>, rank: u32)
    requires held { length held.old ≡ length (abstract_of abstract_task.now).operators }
    requires long { length table.now ≡ product (abstract_of abstract_task.now).domains }
    requires rank { rank < length table.now }
    requires below { (o : ℕ) → o < length (abstract_of abstract_task.now).operators → HeldBelow (abstract_of abstract_task.now) table.now o rank (slice_index held.old o) }
    ensures { (o : ℕ) → o < length (abstract_of abstract_task.now).operators → HeldBelow (abstract_of abstract_task.now) table.now o (rank + 1) (slice_index held.new o) }
{
    let digits = abstract_task.state_of(rank);
    let state = &digits[..abstract_task.pattern.len()];
    for (operator, price) in held.iter_mut().enumerate() {
        if let Some(next) = abstract_task.successor(operator, state) {
            *price = larger(*price, table[rank as usize], table[next as usize]);
        }
    }
}

// Writes the held price of each operator.
fn fill_held(held: &mut [u32], table: &[u32], abstract_task: &AbstractTask<'_>)
    requires held { length held.old ≡ length (abstract_of abstract_task.now).operators }
    requires long { length table.now ≡ product (abstract_of abstract_task.now).domains }
    ensures { (o : ℕ) → o < length (abstract_of abstract_task.now).operators → IsHeld (abstract_of abstract_task.now) table.now o (slice_index held.new o) }
{
    held.fill(0);
    let count = table.len() as u32;
    for rank in 0..count {
        raise(held, table, abstract_task, rank);
    }
}

// Takes the held price of each operator off the row.
pub(crate) fn saturate(table: &[u32], abstract_task: &AbstractTask<'_>, row: &mut [u32])
    requires row { length row.old ≡ length (abstract_of abstract_task.now).operators }
    requires settled { Settled (abstract_of abstract_task.now) row.old table.now }
    ensures { LeavesHeld (abstract_of abstract_task.now) table.now row.old row.new }
{
    let mut memory = [0; 256];
    let held = &mut memory[..row.len()];
    fill_held(held, table, abstract_task);
    // Read by index: of what a zip of `iter_mut` writes a proof knows how long it is, and no element.
    for (operator, price) in row.iter_mut().enumerate() {
        *price -= held[operator];
    }
}
