// A fault in words.
ghost use Rattle.std.specs.Prelude.{Some};
ghost use Rattle.lines.specs.Code.{fault_said, layer_said};
ghost use Rattle.lines.specs.Print.{layer_name, fault_text};

use crate::fault::{Fault, Layer};
use std::fmt;

impl fmt::Display for Layer {
    ghost output = { λ l. Some (layer_name (layer_said l)) };

    fn fmt<W: fmt::Write>(&self, f: &mut fmt::Formatter<W>) -> fmt::Result {
        match self {
            Layer::Line => write!(f, "line"),
            Layer::Field => write!(f, "field"),
            Layer::Sink => write!(f, "sink"),
        }
    }
}

impl fmt::Display for Fault {
    ghost output = { λ f. Some (fault_text (fault_said f)) };

    fn fmt<W: fmt::Write>(&self, f: &mut fmt::Formatter<W>) -> fmt::Result {
        let number = self.number();
        let layer = self.layer();
        let line = self.line;
        let byte = self.byte;
        write!(f, "fault {number} {layer} line {line} byte {byte}")
    }
}
