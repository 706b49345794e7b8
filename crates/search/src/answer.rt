// What the calls hand out.
ghost use Rattle.std.specs.Prelude.{◌≡◌};
ghost use Rattle.plain.specs.declared.fault.Fault.TheVariants.{Own};

use plain::fault::Fault;
use tables::cause::Cause;

// The right to advance a running search. Only a start makes one, and an advance that ends the search uses it up.
#[derive(Drop)]
pub struct GoAhead {
    of: (),
}

impl GoAhead {
    pub(crate) fn give() -> GoAhead {
        GoAhead { of: () }
    }
}

// A plan that was found: its goal node, and its cost. Callers read them by methods, since with public fields anyone
// could make a find.
#[derive(Clone, Copy, PartialEq, Eq)]
pub struct Find {
    pub(crate) node: u32,
    pub(crate) cost: u32,
}

impl Find {
    pub fn node(self) -> u32
        ensures { result ≡ self.node }
    {
        self.node
    }

    pub fn cost(self) -> u32
        ensures { result ≡ self.cost }
    {
        self.cost
    }
}

// What an advance comes to: the go-ahead comes back with More only.
#[derive(Drop)]
pub enum Progress {
    More(GoAhead),
    Found(Find),
    NoPlan,
    Full,
}

// Why an advance is refused, and the go-ahead, which comes back.
#[derive(Drop)]
pub struct Refused {
    pub cause: Cause,
    pub go: GoAhead,
}

impl From<Refused> for Fault {
    ghost from_gives = { λ refused fault. fault ≡ Own refused.cause };

    fn from(refused: Refused) -> Fault {
        Fault::Own(refused.cause)
    }
}

// An advance's answer, with the bound on the cost of every plan and the expansions made since opening.
#[derive(Drop)]
pub struct Advanced {
    pub progress: Result<Progress, Refused>,
    pub bound: u64,
    pub total: u64,
}
