// Why and where reading stops.
ghost use Rattle.std.specs.Prelude.{◌≡◌};
ghost use Rattle.lines.specs.declared.fault.LineFault.TheVariants.{Long, Field};

use buffer::Full;
use fields::FieldFault;

// A line over 1,024 bytes, or what a field or the sink refused.
#[derive(Clone, Copy, Debug, PartialEq)]
pub enum LineFault {
    Long,
    Field(FieldFault),
}

// Both written out, since clauses name the fault that `?` makes.
impl From<Full> for LineFault {
    ghost from_gives = { λ _ r. r ≡ Long };

    fn from(_full: Full) -> LineFault {
        LineFault::Long
    }
}

impl From<FieldFault> for LineFault {
    ghost from_gives = { λ e r. r ≡ Field e };

    fn from(fault: FieldFault) -> LineFault {
        LineFault::Field(fault)
    }
}

// The layer that a fault comes from.
#[derive(Clone, Copy, Debug, PartialEq)]
pub enum Layer {
    Line,
    Field,
    Sink,
}

// A fault with its line, from 1, and its byte of the stream, from 0.
#[derive(Clone, Copy, Debug, PartialEq)]
pub struct Fault {
    pub cause: LineFault,
    pub line: u32,
    pub byte: u32,
}
