// What is printed: by a sink as it keeps events, and at the end.
use lines::Reader;
use notation::{Tally, Transcript, end_lines};
use sink::Sink;
use std::io;

// A sink that prints what it has kept since it was last asked to.
pub(crate) trait Output: Sink {
    fn show(&mut self, rt: &HostRuntime) -> io::Result<()>;
}

impl Output for Transcript {
    fn show(&mut self, rt: &HostRuntime) -> io::Result<()> {
        if self.text().is_empty() {
            return Ok(());
        }
        rt.stdout().write_all(self.text())?;
        self.clear();
        Ok(())
    }
}

// A count is printed at the end.
impl Output for Tally {
    fn show(&mut self, _rt: &HostRuntime) -> io::Result<()> {
        Ok(())
    }
}

// Prints the last event ID, the reconnection time and the fault, if there is one.
pub(crate) fn tell_end(rt: &HostRuntime, reader: &Reader) -> anyhow::Result<()> {
    let mut line = Transcript::new(rt.alloc())?;
    // Each program makes these two calls: one for both would have to fail for want of room too, and is no plainer.
    let _ = line.note(b"last", reader.last_id());
    line.show(rt)?;
    rt.print(end_lines(rt.alloc(), reader)?)?;
    Ok(())
}
