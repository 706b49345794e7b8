ghost use Rattle.std.specs.Prelude.{Some};
ghost use Rattle.tables.specs.Faults.{fault_text};

use super::cause::Cause;
use std::fmt;

// A refusal by the reader or by the making of a task: its cause, the line of the text counted from 1 (0 where no line
// is to blame), and the number of the operator whose lines were being read, if any.
#[derive(Clone, Copy, PartialEq, Eq, Debug)]
pub struct Fault {
    pub cause: Cause,
    pub line: u32,
    pub operator: Option<u16>,
}

impl fmt::Display for Fault {
    ghost output = { λ fault. Some (fault_text fault) };

    fn fmt<W: fmt::Write>(&self, f: &mut fmt::Formatter<W>) -> fmt::Result {
        write!(f, "line {}: {}", self.line, self.cause)
    }
}
