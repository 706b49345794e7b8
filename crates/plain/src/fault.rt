// Why a call of the search refuses.
ghost use Rattle.std.specs.Prelude.{◌≡◌};
ghost use Rattle.plain.specs.Faults.{cause_of};
ghost use Rattle.plain.specs.declared.fault.Fault.TheVariants.{Own, Set};

use estimator::fault::SetFault;
use tables::cause::Cause;

// A cause of the search's own, or the fault of the estimator that a start sets.
#[derive(Clone, Copy, PartialEq, Eq, Debug)]
pub enum Fault {
    Own(Cause),
    Set(SetFault),
}

impl From<Cause> for Fault {
    ghost from_gives = { λ own fault. fault ≡ Own own };

    fn from(own: Cause) -> Fault {
        Fault::Own(own)
    }
}

impl From<SetFault> for Fault {
    ghost from_gives = { λ set fault. fault ≡ Set set };

    fn from(set: SetFault) -> Fault {
        Fault::Set(set)
    }
}

impl Fault {
    // The cause in the fault table.
    pub fn cause(self) -> Cause
        ensures { result ≡ cause_of self }
    {
        match self {
            Fault::Own(cause) => cause,
            Fault::Set(fault) => fault.cause,
        }
    }
}
