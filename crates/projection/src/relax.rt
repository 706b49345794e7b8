// Lowering the entries of the ranks from which a step leads to a state.
ghost use Rattle.std.specs.Prelude.{◌≡◌, ℕ, ◌+◌, ◌<◌, ◌≤◌, length, drop, slice_index};
ghost use Rattle.task.specs.Model.{IsState};
ghost use Rattle.abstraction.specs.Ranks.{product};
ghost use Rattle.abstraction.specs.AbstractTasks.{abstract_of};
ghost use Rattle.projection.specs.Dijkstra.{Relaxed, Preceding};

use super::distances::Distances;
use abstraction::abstract_task::AbstractTask;
use abstraction::place::Place;
use queue::entries::RankEntry;

// The steps of an operator to an abstract state, and how far a step's first state lies from a goal state by it.
#[derive(Clone, Copy)]
pub(crate) struct StepsTo<'s, 'a> {
    pub abstract_task: &'s AbstractTask<'a>,
    pub operator: usize,
    pub state: &'s [u8],
    pub distance: u32,
}

impl Distances<'_> {
    // Lowers the entry of a rank to a distance, if it is greater, and queues the rank.
    pub(crate) fn lower(&mut self, rank: u32, distance: u32)
        requires { rank < length self.old.table.now }
        ensures relaxed { Relaxed (λ k. k ≡ rank) distance self.old self.new }
        ensures lowered { slice_index self.new.table.now rank ≤ distance }
    {
        let at = rank as usize;
        if self.table[at] <= distance {
            return;
        }
        self.table[at] = distance;
        let _ = self.queue.put(RankEntry { distance, rank });
    }

    // Lowers the entry of each rank from which the steps come. The place is a number, since it is one in three rows at once. The places before `place` are settled: their values add `from`
    // to the rank.
    pub(crate) fn relax(&mut self, steps: &StepsTo<'_, '_>, place: usize, from: u32)
        requires number { steps.now.operator < length (abstract_of steps.now.abstract_task.now).operators }
        requires state { IsState (abstract_of steps.now.abstract_task.now) steps.now.state.now }
        requires place { place ≤ length steps.now.abstract_task.now.pattern.now }
        requires room { from + product (drop place (abstract_of steps.now.abstract_task.now).domains) ≤ length self.old.table.now }
        requires few { length self.old.table.now ≤ 65536 }
        ensures relaxed { Relaxed (Preceding steps.now.abstract_task.now steps.now.operator steps.now.state.now place from) steps.now.distance self.old self.new }
        ensures done { (k : ℕ) → Preceding steps.now.abstract_task.now steps.now.operator steps.now.state.now place from k → slice_index self.new.table.now k ≤ steps.now.distance }
    {
        let abstract_task = steps.abstract_task;
        if place == abstract_task.pattern.len() {
            self.lower(from, steps.distance);
            return;
        }
        let Place { domain, weight, .. } = abstract_task.places[place];
        let part = abstract_task.operators[steps.operator].parts[place];
        let values = part.values_before(domain, steps.state[place]);
        for value in values.start..values.end {
            self.relax(steps, place + 1, from + value * weight);
        }
    }
}
