// A list with a slot for each item: the slow way to do what a queue does.
ghost use Rattle.std.specs.Prelude.{◌≡◌};
ghost use Rattle.queue_tests.specs.Lists.{earlier_of, least_of, held_in};

use queue::entries::SearchEntry;

fn earlier(a: Option<SearchEntry>, b: Option<SearchEntry>) -> Option<SearchEntry>
    ensures { result ≡ earlier_of a b }
{
    match (a, b) {
        (Some(x), Some(y)) => Some(x.min(y)),
        _ => a.or(b),
    }
}

pub fn least(list: &[Option<SearchEntry>]) -> Option<SearchEntry>
    ensures { result ≡ least_of list.now }
{
    list.iter().fold(None, |best, slot| earlier(best, *slot))
}

pub fn count(list: &[Option<SearchEntry>]) -> usize
    ensures { result ≡ held_in list.now }
{
    list.iter().filter(|slot| slot.is_some()).count()
}
