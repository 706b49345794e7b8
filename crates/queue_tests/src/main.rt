// Ten thousand mixed operations on a queue, each held against a plain list, and a generic caller.
#![tactic(auto)]

mod pair;
mod plain_list;

ghost use Rattle.std.specs.Prelude.{◌≤◌};
ghost use Rattle.queue.specs.Content.{Sound, Rows};

use pair::Pair;
use queue::entries::{RankEntry, SearchEntry};
use queue::{Queue, QueueEntry};
use std::io;

fn next(number: u64) -> u64 {
    number
        .wrapping_mul(6364136223846793005)
        .wrapping_add(1442695040888963407)
}

// How many of some operations agree with the list.
fn agreeing(operations: u32) -> u32
    ensures { result ≤ operations }
{
    let mut entries = [SearchEntry::default(); 64];
    let mut places = [7u32; 64];
    let mut pair = Pair::new(&mut entries, &mut places);
    let mut number = 1;
    let mut agreed = 0;
    for _ in 0..operations {
        number = next(number);
        if pair.operate(number) {
            agreed += 1;
        }
    }
    agreed
}

// A caller that is generic in the entries.
fn put_all<T: QueueEntry>(queue: &mut Queue<T>, entries: &[T])
    ensures sound { Sound T.item_of T.no_later queue.old → Sound T.item_of T.no_later queue.new }
    ensures rows { Rows queue.old queue.new }
{
    for entry in entries {
        let _ = queue.put(*entry);
    }
}

fn first_rank(ranks: &[RankEntry]) -> Option<RankEntry> {
    let mut entries = [RankEntry::default(); 8];
    let mut places = [0u32; 8];
    let mut queue = Queue::new(&mut entries, &mut places);
    put_all(&mut queue, ranks);
    queue.take()
}

fn main(rt: HostRuntime) -> io::Result<()> {
    let agreed = agreeing(10000);
    println!(rt; "{agreed} of 10000 operations agree")?;
    let ranks = [
        RankEntry {
            distance: 4,
            rank: 1,
        },
        RankEntry {
            distance: 2,
            rank: 6,
        },
        RankEntry {
            distance: 2,
            rank: 3,
        },
        RankEntry {
            distance: 5,
            rank: 3,
        },
    ];
    match first_rank(&ranks) {
        Some(entry) => println!(rt; "first rank {}", entry.rank),
        None => println!(rt; "no rank"),
    }
}
