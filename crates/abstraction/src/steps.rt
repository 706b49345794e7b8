// Abstract states by their ranks, abstract goal states and abstract steps.
ghost use Rattle.std.specs.Prelude.{◌≡◌, ℕ, ◌+◌, ◌<◌, ◌≤◌, length, take, drop, Some, MatchBool, Option, slice_index};
ghost use Rattle.task.specs.Model.{IsState, IsGoal, Admits};
ghost use Rattle.abstraction.specs.Ranks.{product};
ghost use Rattle.abstraction.specs.Parts.{MayFollow, or_else};
ghost use Rattle.abstraction.specs.AbstractTasks.{abstract_of, MayLeadTo};
ghost use Rattle.abstraction.specs.Steps.{Span, StateOf, SuccessorOf};

use super::abstract_task::AbstractTask;
use super::part::OperatorPart;
use std::ops::Range;

// Whether a value is the required one, if any is required.
fn admits(required: Option<u8>, value: u8) -> bool
    ensures { MatchBool result (Admits value required) (Admits value required → ⊥) }
{
    required.is_none_or(|only| value == only)
}

impl OperatorPart {
    // The value of the variable after a step in which it was `before`.
    fn value_after(&self, before: u8) -> u8
        ensures { result ≡ or_else self.now.value before }
    {
        self.value.unwrap_or(before)
    }

    // Whether the variable may have that value after a step.
    fn may_follow(&self, value: u8) -> bool
        ensures { MatchBool result (MayFollow self.now.required self.now.value value) (MayFollow self.now.required self.now.value value → ⊥) }
    {
        match self.value {
            Some(after) => value == after,
            None => admits(self.required, value),
        }
    }

    // The values that the variable may have before a step after which it has `value`. An effect without a required value comes
    // from every value.
    pub fn values_before(&self, domain: u8, value: u8) -> Range<u32>
        requires value { value < domain }
        requires fits { (x : ℕ) → self.now.required ≡ Some x → x < domain }
        ensures { Span result.start result.end (λ x. (x < domain) × Admits x self.now.required × (or_else self.now.value x ≡ value)) }
    {
        if !self.may_follow(value) {
            return 0..0;
        }
        match (self.value, self.required) {
            (Some(_), None) => 0..u32::from(domain),
            (Some(_), Some(required)) => u32::from(required)..u32::from(required) + 1,
            (None, _) => u32::from(value)..u32::from(value) + 1,
        }
    }
}

impl AbstractTask<'_> {
    // The weight of each place: what a value there counts in a rank.
    pub fn weights(&self) -> [u32; 8]
        ensures long { length result ≡ 8 }
        ensures weights { (i : ℕ) → i < length self.now.pattern.now → slice_index result i ≡ product (drop (i + 1) (abstract_of self.now).domains) }
    {
        self.places.map(|place| place.weight)
    }

    // The abstract state of a rank, in as many bytes as the pattern has variables.
    pub fn state_of(&self, rank: u32) -> [u8; 8]
        requires { rank < product (abstract_of self.now).domains }
        ensures { StateOf (abstract_of self.now) rank (take (length self.now.pattern.now) result) }
    {
        let mut state = [0; 8];
        let mut rest = rank;
        let places = &self.places;
        // Written by index: of what a zip of `iter_mut` writes a proof knows how long it is, and no element.
        for (index, place) in places[..self.pattern.len()].iter().enumerate() {
            state[index] = (rest / place.weight) as u8;
            rest %= place.weight;
        }
        state
    }

    // Whether an abstract state is an abstract goal state.
    pub fn is_goal(&self, state: &[u8]) -> bool
        requires { IsState (abstract_of self.now) state.now }
        ensures { MatchBool result (IsGoal (abstract_of self.now) state.now) (IsGoal (abstract_of self.now) state.now → ⊥) }
    {
        self.places
            .iter()
            .zip(state)
            .all(|(place, &value)| admits(place.goal, value))
    }

    // Whether each variable may have its value in the abstract state after the operator. If not, the operator leads to it from
    // nowhere, which most often shows at once.
    pub fn may_lead_to(&self, operator: usize, state: &[u8]) -> bool
        requires number { operator < length (abstract_of self.now).operators }
        requires state { IsState (abstract_of self.now) state.now }
        ensures { MatchBool result (MayLeadTo self.now operator state.now) (MayLeadTo self.now operator state.now → ⊥) }
    {
        let operators = &self.operators;
        operators[operator]
            .parts
            .iter()
            .zip(state)
            .all(|(part, &value)| part.may_follow(value))
    }

    // The rank to which the operator leads from an abstract state, if it applies.
    pub fn successor(&self, operator: usize, state: &[u8]) -> Option<u32>
        requires number { operator < length (abstract_of self.now).operators }
        requires state { IsState (abstract_of self.now) state.now }
        ensures { SuccessorOf (abstract_of self.now) state.now operator result }
    {
        let operators = &self.operators;
        let mut rank = 0;
        for ((part, place), &before) in operators[operator]
            .parts
            .iter()
            .zip(&self.places)
            .zip(state)
        {
            if !admits(part.required, before) {
                return None;
            }
            rank += u32::from(part.value_after(before)) * place.weight;
        }
        Some(rank)
    }
}
