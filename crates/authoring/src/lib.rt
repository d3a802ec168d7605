// From lines that people write to a stream: each line says an event, and each event is written under the next number.

#![tactic(auto)]

mod laws;
mod stop;
mod writing;

pub use laws::what_lines_say_is_read;
pub use script::Cause;
pub use stop::Stop;
pub use writing::write_lines;
