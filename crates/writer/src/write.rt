// What a sender writes, from any byte on, into a buffer of any length.
#![tactic(auto, using(crate::proofs::Onto::shown_count, crate::proofs::Onto::shown_bytes))]

ghost use Rattle.std.specs.Prelude.{◌≡◌};
ghost use Rattle.events.specs.Entry.{entry_of};
ghost use Rattle.writer.specs.Filled.{count_of, filled};
ghost use Rattle.writer.specs.Written.{written, comment_line, retry_line};

use crate::window::Window;
use events::{Entry, LineEnd};

// The three that follow differ in their middle line. As a closure that line would need a contract over its calls, longer than what it saves.

// Fills `out` with the bytes of a written event, from its byte `from` on, and says how many. What `out` holds behind them stays.
pub fn write_event(end: LineEnd, id: &[u8], event: &Entry, from: usize, out: &mut [u8]) -> usize
    ensures count { result ≡ count_of from (written end id.now (entry_of event.now)) out.old }
    ensures out { out.new ≡ filled from (written end id.now (entry_of event.now)) out.old }
{
    let mut window = Window::new(end, from, out);
    window.put_event(id, event);
    window.done()
}

// Likewise with the comment that says nothing.
pub fn write_comment(end: LineEnd, from: usize, out: &mut [u8]) -> usize
    ensures count { result ≡ count_of from (comment_line end) out.old }
    ensures out { out.new ≡ filled from (comment_line end) out.old }
{
    let mut window = Window::new(end, from, out);
    window.put_comment();
    window.done()
}

// Likewise with the line of a reconnection time in milliseconds.
pub fn write_retry(end: LineEnd, time: u32, from: usize, out: &mut [u8]) -> usize
    ensures count { result ≡ count_of from (retry_line end time) out.old }
    ensures out { out.new ≡ filled from (retry_line end time) out.old }
{
    let mut window = Window::new(end, from, out);
    window.put_retry(time);
    window.done()
}
