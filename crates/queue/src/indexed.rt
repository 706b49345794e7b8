// An indexed binary heap over lent entries and places.
ghost use Rattle.std.specs.Prelude.{◌≡◌, ℕ, ◌+◌, ◌*◌, ◌^◌, ◌<◌, ◌≤◌, true, length, Some, None, slice_index_or, slice_set};
ghost use Rattle.queue.specs.Heap.{HeapOrdered, Indexed, OrderedButAbove, OrderedButBelow};
ghost use Rattle.queue.specs.Content.{Sound, Takes, Rows, Changed};
ghost use Rattle.queue.specs.Sifting.{Missing, Located, LeastChild, Hole, Filled};

use crate::QueueEntry;

// The first `len` entries are the heap. The place of an item is where its entry stands, and anything if it has none:
// an item is held exactly if the entry at its place is in use and is the item's. So no place has to be cleared, and
// 32 bits hold the place of every item.
//
// The entries and places are the caller's memory, so the length stands beside them.
#[derive(Drop)]
pub(crate) struct Heap<'a, T> {
    pub(crate) entries: &'a mut [T],
    pub(crate) places: &'a mut [u32],
    pub(crate) len: usize,
}

impl<'a, T: QueueEntry> Heap<'a, T> {
    // Whether an item is below the lengths of both entries and places.
    pub(crate) fn takes(&self, item: u32) -> bool
        ensures inside { result ≡ true → Takes self.now item }
        ensures outside { Takes self.now item → result ≡ true }
    {
        let k = item as usize;
        k < self.entries.len() && k < self.places.len()
    }

    // The place of an item's entry, if it has one.
    pub(crate) fn place_of(&self, item: u32) -> Option<usize>
        requires { Indexed T.item_of self.now.entries.now self.now.places.now self.now.len }
        ensures { Located T.item_of self.now.entries.now self.now.len item result }
    {
        let (entries, places) = (&*self.entries, &*self.places);
        let place = *places.get(item as usize)? as usize;
        if place < self.len && entries[place].item() == item {
            return Some(place);
        }
        None
    }

    // Adds an entry for an item that has none.
    pub(crate) fn append(&mut self, entry: T)
        requires sound { Sound T.item_of T.no_later self.old }
        requires takes { Takes self.old (T.item_of entry) }
        requires number { T.item_of entry < 2 ^ 32 }
        requires missing { Missing T.item_of self.old.entries.now self.old.len (T.item_of entry) }
        ensures sound { Sound T.item_of T.no_later self.new }
        ensures rows { Rows self.old self.new }
        ensures len { self.new.len ≡ self.old.len + 1 }
        ensures changed { Changed T.item_of self.old self.new (T.item_of entry) (Some entry) }
    {
        let end = self.len;
        self.len = end + 1;
        self.sift_up(end, entry);
    }

    // Removes the entry at a place: the last entry goes where it stood.
    pub(crate) fn remove_at(&mut self, place: usize)
        requires sound { Sound T.item_of T.no_later self.old }
        requires within { place < self.old.len }
        ensures sound { Sound T.item_of T.no_later self.new }
        ensures rows { Rows self.old self.new }
        ensures len { self.new.len + 1 ≡ self.old.len }
        ensures changed { (d : T) → Changed T.item_of self.old self.new (T.item_of (slice_index_or self.old.entries.now place d)) None }
    {
        let last = self.len - 1;
        self.len = last;
        if place == last {
            return;
        }
        let moved = self.entries[last];
        self.refill(place, moved);
    }

    // Puts an entry in the place of the one that stands there, and sifts it to where it belongs.
    pub(crate) fn refill(&mut self, place: usize, sifted: T)
        requires hole { Hole T.item_of self.old place sifted }
        requires ordered { HeapOrdered T.no_later self.old.entries.now self.old.len }
        ensures { Filled T.item_of T.no_later self.old self.new place sifted }
    {
        let replaced = self.entries[place];
        if sifted.no_later_than(&replaced) {
            self.sift_up(place, sifted);
            return;
        }
        self.sift_down(place, sifted);
    }

    // Moves later parents down into the hole until the entry fits.
    fn sift_up(&mut self, place: usize, sifted: T)
        requires hole { Hole T.item_of self.old place sifted }
        requires ordered { OrderedButAbove T.no_later (slice_set self.old.entries.now place sifted) self.old.len place }
        ensures { Filled T.item_of T.no_later self.old self.new place sifted }
    {
        let mut hole = place;
        while hole > 0 {
            let parent = (hole - 1) / 2;
            let above = self.entries[parent];
            if above.no_later_than(&sifted) {
                break;
            }
            self.write(hole, above);
            hole = parent;
        }
        self.write(hole, sifted);
    }

    // Moves earlier children up into the hole until the entry fits.
    fn sift_down(&mut self, place: usize, sifted: T)
        requires hole { Hole T.item_of self.old place sifted }
        requires ordered { OrderedButBelow T.no_later (slice_set self.old.entries.now place sifted) self.old.len place }
        ensures { Filled T.item_of T.no_later self.old self.new place sifted }
    {
        let mut hole = place;
        while 2 * hole + 1 < self.len {
            let child = self.least_child(hole);
            let below = self.entries[child];
            if sifted.no_later_than(&below) {
                break;
            }
            self.write(hole, below);
            hole = child;
        }
        self.write(hole, sifted);
    }

    // Writes an entry, and where it stands as the place of its item.
    fn write(&mut self, place: usize, entry: T)
        requires place { place < length self.old.entries.now }
        requires item { T.item_of entry < length self.old.places.now }
        requires small { place < 2 ^ 32 }
        ensures entries { self.new.entries.now ≡ slice_set self.old.entries.now place entry }
        ensures places { self.new.places.now ≡ slice_set self.old.places.now (T.item_of entry) place }
        ensures len { self.new.len ≡ self.old.len }
    {
        self.entries[place] = entry;
        self.places[entry.item() as usize] = place as u32;
    }

    // The child of an inner place that comes first.
    fn least_child(&self, place: usize) -> usize
        requires fits { self.now.len ≤ length self.now.entries.now }
        requires inner { 2 * place + 1 < self.now.len }
        ensures { LeastChild T.no_later self.now.entries.now self.now.len place result }
    {
        let entries = &*self.entries;
        let left = 2 * place + 1;
        let right = left + 1;
        if right < self.len && !entries[left].no_later_than(&entries[right]) {
            return right;
        }
        left
    }
}
