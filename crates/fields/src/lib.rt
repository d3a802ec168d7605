// From a finished line to a block of fields, and from a finished block to an event for the sink.

#![tactic(auto, using(crate::proofs::Names::field_laws))]

mod block;
mod fault;
mod field;
mod lines;
mod reads;

pub use block::Fields;
pub use fault::FieldFault;
pub use field::Field;
pub use reads::field_of;
