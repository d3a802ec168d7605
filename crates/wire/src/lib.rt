// Where sending and reading meet: what is written for an event is read as that event alone.

#![tactic(auto)]

mod laws;
mod reads;
mod writes;

pub use laws::{
    a_sink_is_offered_what_bytes_give, a_stream_means_what_was_sent,
    what_was_sent_gives_its_events, what_was_sent_is_read, worked_cases,
};
pub use reads::read_sent;
pub use writes::write_numbered;
