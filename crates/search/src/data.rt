// Calls given as data, and the replies that they get.
ghost use Rattle.std.specs.Prelude.{◌≡◌, ◌+◌, ◌-◌, min, false, Some, None};
ghost use Rattle.search.specs.Search.{start_outcome, start_go_ahead, outcome_of, go_ahead_of};
ghost use Rattle.search.specs.Replay.{Says, SaysResult, quiet};

use crate::answer::{Advanced, Find, GoAhead, Progress};
use plain::fault::Fault;
use std::ops::Range;
use tables::cause::Cause;

// A part of the lent row or buffer: `len` places from `from` on, cut where the row or buffer ends.
#[derive(Clone, Copy)]
pub struct Part {
    pub from: usize,
    pub len: usize,
}

impl Part {
    // The part's places in a row or buffer of so many.
    pub(crate) fn within(self, places: usize) -> Range<usize>
        ensures from { result.start ≡ min self.from places }
        ensures to { result.end ≡ result.start + min self.len (places - result.start) }
    {
        let from = self.from.min(places);
        from..from + self.len.min(places - from)
    }
}

// A call given as data: a start with a part of the lent row, an advance, a reading of the bound, and a writing of the
// find of any node and cost into a part of the lent buffer.
#[derive(Clone, Copy)]
pub enum Call {
    Start(Part),
    Advance(u64),
    Read,
    Write(u32, u32, Part),
}

// What a call that was not refused came to.
#[derive(Clone, Copy)]
pub enum Outcome {
    Started,
    More,
    Found(Find),
    NoPlan,
    Full,
    Bound,
    Written(usize),
}

// What a call answered, with the numbers that it reports. Whether a go-ahead was handed out or back is told by `go`: a
// reply that held the go-ahead itself would give whoever reads it the right to advance.
#[derive(Clone, Copy)]
pub struct Reply {
    pub outcome: Result<Outcome, Fault>,
    pub go: bool,
    pub bound: Option<u64>,
    pub total: Option<u64>,
}

impl Reply {
    // A reply that reports no numbers.
    fn quiet(outcome: Result<Outcome, Fault>, go: bool) -> Reply
        ensures { result ≡ quiet outcome go }
    {
        Reply {
            outcome,
            go,
            bound: None,
            total: None,
        }
    }
}

// The reply that a start makes.
impl From<Result<GoAhead, Fault>> for Reply {
    ghost from_gives = { λ started reply. Says reply (start_outcome started) (start_go_ahead started) None None };

    fn from(started: Result<GoAhead, Fault>) -> Reply {
        let go = started.is_ok();
        Reply::quiet(started.map(|_| Outcome::Started), go)
    }
}

// The reply that an advance makes.
impl From<Advanced> for Reply {
    ghost from_gives = { λ advanced reply. Says reply (outcome_of advanced.progress) (go_ahead_of advanced.progress) (Some advanced.bound) (Some advanced.total) };

    fn from(advanced: Advanced) -> Reply {
        let (outcome, go) = match advanced.progress {
            Ok(Progress::More(_)) => (Ok(Outcome::More), true),
            Ok(Progress::Found(find)) => (Ok(Outcome::Found(find)), false),
            Ok(Progress::NoPlan) => (Ok(Outcome::NoPlan), false),
            Ok(Progress::Full) => (Ok(Outcome::Full), false),
            Err(refused) => (Err(refused.into()), true),
        };
        Reply {
            outcome,
            go,
            bound: Some(advanced.bound),
            total: Some(advanced.total),
        }
    }
}

// The reply that a writing makes.
impl From<Result<usize, Cause>> for Reply {
    ghost from_gives = { λ written reply. SaysResult written reply };

    fn from(written: Result<usize, Cause>) -> Reply {
        Reply::quiet(written.map(Outcome::Written).map_err(Fault::from), false)
    }
}
