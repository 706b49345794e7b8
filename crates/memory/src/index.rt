// The index of the held states: words, 0 for none and k + 1 for node k, by open addressing.
ghost use Rattle.std.specs.Prelude.{◌≡◌, ℕ, ◌+◌, ◌*◌, ◌%◌, ◌<◌, ◌≤◌, length, MatchBool, ◌≢◌};
ghost use Rattle.memory.specs.Index.{hash, fingerprint};
ghost use Rattle.memory.specs.Rows.{state_at, Consistent, LookedUp};

use crate::memory::Memory;

// Where a state is held, or where it would go; Crowded: no word of the index is free. An enum of its own, since there are
// three answers, each with a name, and none is an error.
#[derive(Clone, Copy)]
pub enum Lookup {
    Held(usize),
    Free(usize),
    Crowded,
}

// 64 bits in which every byte of the state has a part.
fn fingerprint_of(state: &[u8]) -> u64
    ensures { result ≡ fingerprint state.now }
{
    state.iter().rev().fold(0, |mixed: u64, byte| {
        mixed
            .wrapping_add(*byte as u64 + 1)
            .wrapping_mul(0x9e37_79b9_7f4a_7c15)
    })
}

// The first word that is tried for a state: the upper half of the fingerprint is the better mixed one.
fn hash_of(state: &[u8], slots: usize) -> usize
    requires { 0 < slots }
    ensures is { result ≡ hash slots state.now }
    ensures low { result < slots }
{
    let mixed = fingerprint_of(state);
    (mixed / 4294967296) as usize % slots
}

impl<'a> Memory<'a> {
    // Whether node k has this state.
    fn has_state(&self, node: usize, state: &[u8]) -> bool
        requires consistent { Consistent self.now }
        requires inside { node < self.now.held }
        ensures { MatchBool result (state_at self.now node ≡ state.now) (state_at self.now node ≢ state.now) }
    {
        self.state(node) == state
    }

    // The node of a state, or the free word for it.
    pub fn look_up(&self, state: &[u8]) -> Lookup
        requires consistent { Consistent self.now }
        ensures { LookedUp self.now state.now result }
    {
        let slots = self.index.len();
        if slots == 0 {
            return Lookup::Crowded;
        }
        let first = hash_of(state, slots);
        for at in (first..slots).chain(0..first) {
            let word = self.index[at] as usize;
            if word == 0 {
                return Lookup::Free(at);
            }
            if self.has_state(word - 1, state) {
                return Lookup::Held(word - 1);
            }
        }
        Lookup::Crowded
    }
}
