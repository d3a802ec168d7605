// What an event is, as every layer hands it on, and why a call is refused.

#![tactic(auto, using(crate::proofs::Texts::passed_lengths))]

ghost use Rattle.events.specs.Event.{event_of};

mod checks;
mod entries;
mod entry;
mod line_end;
mod memory;
mod message;
mod refusal;

pub use entry::Entry;
pub use line_end::{LineEnd, UnknownLineEnd};
pub use memory::check_memory;
pub use message::is_message;
pub use refusal::Refusal;

// A finished event: the id text, the type and the data, each as bytes.
#[derive(Clone, Copy)]
pub struct Event<'a> {
    pub id: &'a [u8],
    pub event_type: &'a [u8],
    pub data: &'a [u8],
}
