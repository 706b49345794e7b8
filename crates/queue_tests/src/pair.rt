// A queue and a plain list that change together.
ghost use Rattle.queue_tests.specs.Lists.{Agree};

use crate::plain_list::{count, least};
use queue::Queue;
use queue::entries::SearchEntry;

#[derive(Drop)]
pub struct Pair<'a> {
    queue: Queue<'a, SearchEntry>,
    list: [Option<SearchEntry>; 64],
    ghost agree: { ∥ Agree queue list ∥₁ },
}

impl<'a> Pair<'a> {
    // Of no entries, over two slices of any content.
    pub fn new(entries: &'a mut [SearchEntry; 64], places: &'a mut [u32; 64]) -> Self {
        let queue = Queue::new(entries, places);
        let list = [None; 64];
        Pair { queue, list }
    }

    // One operation, drawn from a number: items up to 79 of 64, so that some are refused. True if queue and list agree.
    pub fn operate(&mut self, number: u64) -> bool {
        let node = ((number >> 8) % 80) as u32;
        let f = (number >> 16) % 40;
        let estimate = ((number >> 24) % 4) as u32;
        match number >> 61 {
            0..=3 => self.put(SearchEntry { f, estimate, node }),
            4 | 5 => self.drop_item(node),
            _ => self.take(),
        }
    }

    // Puts an entry into both. True if both took it, or neither.
    fn put(&mut self, entry: SearchEntry) -> bool {
        let item = entry.node as usize;
        let accepted = self.queue.put(entry).is_ok();
        if item >= self.list.len() {
            return !accepted;
        }
        self.list[item] = Some(entry);
        accepted
    }

    // Drops an item from both. True if both then hold as many entries.
    fn drop_item(&mut self, item: u32) -> bool {
        let k = item as usize;
        self.queue.drop_item(item);
        if k < self.list.len() {
            self.list[k] = None;
        }
        self.queue.len() == count(&self.list)
    }

    // Takes an entry from both. True if it is the same one.
    fn take(&mut self) -> bool {
        let expected = least(&self.list);
        let taken = self.queue.take();
        if let Some(entry) = taken {
            self.list[entry.node as usize] = None;
        }
        taken == expected
    }
}
