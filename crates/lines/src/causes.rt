// The number and the layer of a fault.
ghost use Rattle.std.specs.Prelude.{◌≡◌};
ghost use Rattle.lines.specs.Code.{fault_said, layer_said};

use crate::fault::{Fault, Layer, LineFault};
use fields::FieldFault;

impl Fault {
    // 8 for a line, 9 for an id, 10 for a type and 11 for data over its limit, or the sink's own number. A match, since a fault with
    // another in it has no number of its own.
    pub fn number(&self) -> u32
        ensures { result ≡ (fault_said self.now).cause.number }
    {
        match self.cause {
            LineFault::Long => 8,
            LineFault::Field(FieldFault::LongId) => 9,
            LineFault::Field(FieldFault::LongType) => 10,
            LineFault::Field(FieldFault::LongData) => 11,
            LineFault::Field(FieldFault::Sink(fault)) => fault.number,
        }
    }

    // The layer that met the fault.
    pub fn layer(&self) -> Layer
        ensures { layer_said result ≡ (fault_said self.now).cause.layer }
    {
        match self.cause {
            LineFault::Long => Layer::Line,
            LineFault::Field(FieldFault::Sink(_)) => Layer::Sink,
            LineFault::Field(_) => Layer::Field,
        }
    }
}
