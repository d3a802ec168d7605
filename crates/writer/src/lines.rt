// The lines that a sender writes, written through a window.
ghost use Rattle.events.specs.Entry.{entry_of};
ghost use Rattle.events.specs.LineEnd.{end_bytes};
ghost use Rattle.writer.specs.Views.{Puts};
ghost use Rattle.writer.specs.Written.{field_line, type_line, data_lines, written, comment_line, retry_line};

use crate::window::Window;
use events::{Entry, is_message};
use itoa::Buffer;

impl Window<'_> {
    // The end of a line.
    fn put_end(&mut self)
        ensures { Puts self.old self.new (end_bytes self.old.end) }
    {
        self.put(self.end.bytes());
    }

    // The line of a field.
    fn put_field(&mut self, name: &[u8], value: &[u8])
        ensures { Puts self.old self.new (field_line self.old.end name.now value.now) }
    {
        self.put(name);
        self.put(b": ");
        self.put(value);
        self.put_end();
    }

    // The line of a type, which is left out for `message`.
    fn put_type(&mut self, event_type: &[u8])
        ensures { Puts self.old self.new (type_line self.old.end event_type.now) }
    {
        if !is_message(event_type) {
            self.put_field(b"event", event_type);
        }
    }

    // A line for each piece of the data between LFs.
    fn put_data(&mut self, data: &[u8])
        ensures { Puts self.old self.new (data_lines self.old.end «data».now) }
    {
        for piece in data.split(|b| *b == b'\n') {
            self.put_field(b"data", piece);
        }
    }

    // An event and the blank line that ends it.
    pub(crate) fn put_event(&mut self, id: &[u8], event: &Entry)
        ensures { Puts self.old self.new (written self.old.end id.now (entry_of event.now)) }
    {
        self.put_field(b"id", id);
        self.put_type(event.event_type());
        self.put_data(event.data());
        self.put_end();
    }

    // The comment that says nothing.
    pub(crate) fn put_comment(&mut self)
        ensures { Puts self.old self.new (comment_line self.old.end) }
    {
        self.put(b":");
        self.put_end();
    }

    // The line of a reconnection time in milliseconds.
    #[tactic(auto, unfolding(crate::specs::Written::retry_line))]
    pub(crate) fn put_retry(&mut self, time: u32)
        ensures { Puts self.old self.new (retry_line self.old.end time) }
    {
        let mut digits = Buffer::new();
        self.put_field(b"retry", digits.format(time).as_bytes());
    }
}
