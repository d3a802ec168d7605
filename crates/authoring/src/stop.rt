// Lines that stop the writing.
ghost use Rattle.std.specs.Prelude.{Some};
ghost use Rattle.authoring.specs.Told.{stop_told};

use script::Cause;
use std::fmt;

// Where the writing stopped before the end of the text, lines counted from 1, and why.
#[derive(Clone, Copy, Debug, PartialEq)]
pub struct Stop {
    pub line: u64,
    pub cause: Cause,
}

impl fmt::Display for Stop {
    ghost output = { λ s. Some (stop_told s) };

    fn fmt<W: fmt::Write>(&self, f: &mut fmt::Formatter<W>) -> fmt::Result {
        let line = self.line;
        match self.cause {
            Cause::Refused(refusal) => {
                let number = refusal.number();
                write!(f, "refused {number} at line {line}")
            }
            Cause::Unreadable => write!(
                f,
                "error: line {line} is not a type and data between quotes"
            ),
        }
    }
}
