// Why a line is refused.
ghost use Rattle.std.specs.Prelude.{◌≡◌};
ghost use Rattle.fields.specs.declared.fault.FieldFault.TheVariants.{Sink};

use sink::SinkFault;

// A value over its limit, or the sink's refusal.
#[derive(Clone, Copy, Debug, PartialEq)]
pub enum FieldFault {
    LongId,
    LongType,
    LongData,
    Sink(SinkFault),
}

// Written out, since clauses name the fault that `?` makes.
impl From<SinkFault> for FieldFault {
    ghost from_gives = { λ e r. r ≡ Sink e };

    fn from(fault: SinkFault) -> FieldFault {
        FieldFault::Sink(fault)
    }
}
