// A priority queue of at most one entry an item: an indexed binary heap over lent entries and places.
#![tactic(auto)]

pub mod entries;
mod indexed;

ghost use Rattle.std.specs.Prelude.{◌≡◌, ℕ, Bool, true, None};
ghost use Rattle.std.specs.Ordering.{is_le};
ghost use Rattle.std.specs.declared.cmp.Ordering.TheVariants.{Equal};
ghost use Rattle.queue.specs.Content.{content, Sound, Rows, Changed, Resized, Put, Taken};

use indexed::Heap;
use std::marker::Model;
use tables::cause::Cause;

// What a queue holds: an entry names its item, and `<=` says which of two comes first. No two entries are tied.
// The laws tie the order of the type to the word by which contracts name it.
pub trait QueueEntry: Copy + Ord {
    ghost item_of: { Self → ℕ };

    // Whether the first comes before the second or is equal to it.
    ghost no_later: { Self → Self → Bool };

    fn item(&self) -> u32
        ensures { result ≡ item_of self.now };

    fn no_later_than(&self, other: &Self) -> bool
        ensures { result ≡ no_later self.now other.now }
    {
        self <= other
    }

    ghost matches_cmp: { (x y : Self) → is_le (Self.Ord.cmp x y) ≡ no_later x y };

    ghost no_ties: { (x y : Self) → Self.Ord.cmp x y ≡ Equal → x ≡ y };
}

// The heap of every queue is sound, so that no call asks anything of its caller. A clause sees a queue as its heap.
#[derive(Drop)]
pub struct Queue<'a, T: QueueEntry> {
    heap: Heap<'a, T>,
}

impl<'a, T: QueueEntry> Model for Queue<'a, T> {
    ghost use Rattle.queue.specs.declared.indexed.Heap.{Heap};

    ghost Value = { Heap T };

    ghost use Rattle.queue.specs.Content.{Sound};

    ghost view = { λ q. q.heap };

    ghost invariant = { λ q. Sound T.item_of T.no_later q.heap };
}

impl<'a, T: QueueEntry> Queue<'a, T> {
    // An empty queue over two slices, which may hold anything.
    pub fn new(entries: &'a mut [T], places: &'a mut [u32]) -> Self
        ensures sound { Sound T.item_of T.no_later result }
        ensures empty { (k : ℕ) → content T.item_of result k ≡ None }
        ensures len { result.len ≡ 0 }
        ensures entries { result.entries.now ≡ entries.old }
        ensures places { result.places.now ≡ places.old }
    {
        let heap = Heap {
            entries,
            places,
            len: 0,
        };
        Queue { heap }
    }

    // How many entries there are.
    pub fn len(&self) -> usize
        ensures { result ≡ self.now.len }
    {
        self.heap.len
    }

    // Adds an entry, or puts it in the place of the one of its item.
    pub fn put(&mut self, entry: T) -> Result<(), Cause>
        ensures sound { Sound T.item_of T.no_later self.new }
        ensures rows { Rows self.old self.new }
        ensures put { Put T.item_of entry self.old self.new result }
    {
        let item = entry.item();
        if !self.heap.takes(item) {
            return Err(Cause::Item);
        }
        if let Some(place) = self.heap.place_of(item) {
            self.heap.refill(place, entry);
            return Ok(());
        }
        self.heap.append(entry);
        Ok(())
    }

    // Removes the entry of an item, if there is one.
    pub fn drop_item(&mut self, item: u32)
        ensures sound { Sound T.item_of T.no_later self.new }
        ensures rows { Rows self.old self.new }
        ensures dropped { Changed T.item_of self.old self.new item None }
        ensures resized { Resized T.item_of self.old self.new item None }
    {
        if let Some(place) = self.heap.place_of(item) {
            self.heap.remove_at(place);
        }
    }

    // Takes out the first entry.
    pub fn take(&mut self) -> Option<T>
        ensures sound { Sound T.item_of T.no_later self.new }
        ensures rows { Rows self.old self.new }
        ensures taken { Taken T.item_of T.no_later self.old self.new result }
    {
        if self.heap.len == 0 {
            return None;
        }
        let first = self.heap.entries[0];
        self.heap.remove_at(0);
        Some(first)
    }
}
