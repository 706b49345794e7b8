// What a search keeps besides its task, and how its status moves on.
ghost use Rattle.std.specs.Prelude.{◌≡◌};

use crate::answer::{Advanced, Find, GoAhead, Progress, Refused};
use memory::memory::Memory;
use tables::cause::Cause;

// How a search stands; found: with this find.
#[derive(Clone, Copy, PartialEq, Eq)]
pub enum Status {
    Fresh,
    Running,
    Found(Find),
    NoPlan,
    Full,
}

// What one step of the search came to.
#[derive(Clone, Copy, PartialEq, Eq)]
pub enum Event {
    Expanded,
    Goal(Find),
    Empty,
    Overflow,
}

// A search: its memory, how it stands, the bound on the cost of every plan, and the expansions made since opening.
#[derive(Drop)]
pub struct Core<'a> {
    pub(crate) memory: Memory<'a>,
    pub(crate) status: Status,
    pub(crate) bound: u64,
    pub(crate) total: u64,
}

impl<'a> Core<'a> {
    ghost use Rattle.search.specs.Search.{Concludes};

    // Moves a running search on to the status of the event. The go-ahead goes back while it runs, and ends with it.
    pub(crate) fn conclude(&mut self, event: Event, go: GoAhead) -> Result<Progress, Refused>
        ensures { Concludes self.old self.old.status event result self.new }
    {
        match (self.status, event) {
            (Status::Running, Event::Expanded) => Ok(Progress::More(go)),
            (Status::Running, Event::Goal(find)) => {
                self.status = Status::Found(find);
                Ok(Progress::Found(find))
            }
            (Status::Running, Event::Empty) => {
                self.status = Status::NoPlan;
                Ok(Progress::NoPlan)
            }
            (Status::Running, Event::Overflow) => {
                self.status = Status::Full;
                Ok(Progress::Full)
            }
            (_, _) => Err(Refused {
                cause: Cause::Order,
                go,
            }),
        }
    }

    // An advance's answer as the search stands.
    pub(crate) fn report(&self, progress: Result<Progress, Refused>) -> Advanced
        ensures { result ≡ record { progress = progress; bound = self.now.bound; total = self.now.total } }
    {
        Advanced {
            progress,
            bound: self.bound,
            total: self.total,
        }
    }
}
