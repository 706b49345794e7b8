ghost use Rattle.std.specs.Prelude.{◌≡◌};

use tables::cause::Cause;

// A set that is refused: the cause, the kind number of the estimator that refuses, and its layer number in the pile.
#[derive(Clone, Copy, PartialEq, Eq, Debug)]
pub struct SetFault {
    pub cause: Cause,
    pub kind: u8,
    pub layer: u16,
}

impl SetFault {
    // The refusal by an estimator of that kind at that layer. The kind is an argument, since the check cannot state a trait's
    // constant in an impl with lifetimes, as a projection's.
    pub fn new(cause: Cause, kind: u8, layer: u16) -> SetFault
        ensures { result ≡ record { cause = cause; kind = kind; layer = layer } }
    {
        SetFault { cause, kind, layer }
    }
}
