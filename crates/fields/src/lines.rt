// What each line does to the block.
ghost use Rattle.std.specs.Prelude.{◌≡◌, ◌<◌, [], length, is_ok, if◌then◌else◌, nat_eq, nat_le};
ghost use Rattle.buffer.specs.Bytes.{bytes_of};
ghost use Rattle.sink.specs.Answer.{answer};
ghost use Rattle.fields.specs.Block.{unread, renewed, joined, says_data, says_event, says_id, says_retry, says, typed, block_event, moved};
ghost use Rattle.fields.specs.Hand.{hand_line};
ghost use Rattle.fields.specs.Code.{held_of, answer_of, field_said, field_answer, field_told};

use crate::block::Fields;
use crate::fault::FieldFault;
use crate::field::Field;
use crate::reads::field_of;
use buffer::{Buffer, Full};
use decimal::capped;
use events::Event;
use sink::{Sink, SinkFault};

// The reconnection time of a new receiver, and the longest, in milliseconds.
const FIRST_RETRY: u32 = 3_000;

const LONGEST_RETRY: u32 = 3_600_000;

impl Fields {
    // Nothing read yet.
    pub fn new() -> Fields
        ensures { held_of result ≡ unread }
    {
        Fields {
            data: Buffer::new(),
            event_type: Buffer::new(),
            id: Buffer::new(),
            last: Buffer::new(),
            retry: FIRST_RETRY,
        }
    }

    // A new stream: the last event ID and the reconnection time stay.
    pub fn renew(&mut self)
        ensures { held_of self.new ≡ renewed (held_of self.old) }
    {
        self.data.clear();
        self.event_type.clear();
        self.id.clear();
    }

    // The last event ID.
    pub fn last_id(&self) -> &[u8]
        ensures { result.now ≡ (held_of self.now).last_id }
    {
        self.last.as_slice()
    }

    // The reconnection time.
    pub fn retry(&self) -> u32
        ensures { result ≡ (held_of self.now).retry }
    {
        self.retry
    }

    // What a finished line does; an event that is finished goes to the sink. Answers whether one was kept.
    pub fn line<S: Sink>(&mut self, line: &[u8], sink: &mut S) -> Result<bool, FieldFault>
        ensures held { held_of self.new ≡ (hand_line S.Sink.refusal S.Sink.after (held_of self.old) (S.Sink.state sink.old) line.now).held }
        ensures sink { S.Sink.state sink.new ≡ (hand_line S.Sink.refusal S.Sink.after (held_of self.old) (S.Sink.state sink.old) line.now).sink }
        ensures answer { answer_of result ≡ (hand_line S.Sink.refusal S.Sink.after (held_of self.old) (S.Sink.state sink.old) line.now).answer }
    {
        if line.is_empty() {
            return self.blank(sink);
        }
        self.say(field_of(line))?;
        Ok(false)
    }

    // What a field does to the block.
    fn say(&mut self, field: Field<'_>) -> Result<(), FieldFault>
        ensures held { held_of self.new ≡ (says (held_of self.old) (field_said field.entry)).held }
        ensures answer { field_answer result ≡ field_told (says (held_of self.old) (field_said field.entry)).outcome }
    {
        match field {
            Field::Data(value) => self.say_data(value),
            Field::Event(value) => self.say_event(value),
            Field::Id(value) => self.say_id(value),
            Field::Retry(value) => {
                self.say_retry(value);
                Ok(())
            }
            Field::Comment | Field::Other => Ok(()),
        }
    }

    fn say_data(&mut self, value: &[u8]) -> Result<(), FieldFault>
        ensures held { held_of self.new ≡ (says_data (held_of self.old) value.now).held }
        ensures answer { field_answer result ≡ field_told (says_data (held_of self.old) value.now).outcome }
    {
        join(&mut self.data, value).map_err(|_| FieldFault::LongData)
    }

    fn say_event(&mut self, value: &[u8]) -> Result<(), FieldFault>
        ensures held { held_of self.new ≡ (says_event (held_of self.old) value.now).held }
        ensures answer { field_answer result ≡ field_told (says_event (held_of self.old) value.now).outcome }
    {
        self.event_type.set(value).map_err(|_| FieldFault::LongType)
    }

    fn say_id(&mut self, value: &[u8]) -> Result<(), FieldFault>
        ensures held { held_of self.new ≡ (says_id (held_of self.old) value.now).held }
        ensures answer { field_answer result ≡ field_told (says_id (held_of self.old) value.now).outcome }
    {
        if value.len() <= 32 && value.contains(&0) {
            return Ok(());
        }
        self.id.set(value).map_err(|_| FieldFault::LongId)
    }

    fn say_retry(&mut self, value: &[u8])
        ensures { held_of self.new ≡ (says_retry (held_of self.old) value.now).held }
    {
        if let Some(time) = capped(value, LONGEST_RETRY) {
            self.retry = time;
        }
    }

    // The end of a block.
    fn blank<S: Sink>(&mut self, sink: &mut S) -> Result<bool, FieldFault>
        ensures held { held_of self.new ≡ (hand_line S.Sink.refusal S.Sink.after (held_of self.old) (S.Sink.state sink.old) []).held }
        ensures sink { S.Sink.state sink.new ≡ (hand_line S.Sink.refusal S.Sink.after (held_of self.old) (S.Sink.state sink.old) []).sink }
        ensures answer { answer_of result ≡ (hand_line S.Sink.refusal S.Sink.after (held_of self.old) (S.Sink.state sink.old) []).answer }
    {
        if self.data.as_slice().is_empty() {
            self.move_on();
            return Ok(false);
        }
        let kept = self.hand(sink);
        self.data.clear();
        self.event_type.clear();
        kept?;
        self.move_on();
        Ok(true)
    }

    // Hands the block's event to the sink.
    fn hand<S: Sink>(&self, sink: &mut S) -> Result<(), SinkFault>
        requires { 0 < length (held_of self.now).data_buffer }
        ensures answer { result ≡ answer (S.Sink.refusal (S.Sink.state sink.old) (block_event (held_of self.now))) }
        ensures sink { S.Sink.state sink.new ≡ (if nat_eq (S.Sink.refusal (S.Sink.state sink.old) (block_event (held_of self.now))) 0 then S.Sink.after (S.Sink.state sink.old) (block_event (held_of self.now)) else S.Sink.state sink.old) }
    {
        let data = self.data.as_slice();
        let event = Event {
            id: self.id.as_slice(),
            event_type: type_or_message(self.event_type.as_slice()),
            data: &data[..data.len() - 1],
        };
        sink.keep(event)
    }

    // Data and type are emptied, and the last event ID becomes the id buffer.
    fn move_on(&mut self)
        ensures { held_of self.new ≡ moved (held_of self.old) }
    {
        self.data.clear();
        self.event_type.clear();
        self.last = self.id;
    }
}

// The value and an LF more, unless they do not fit.
fn join(buffer: &mut Buffer<513>, value: &[u8]) -> Result<(), Full>
    ensures bytes { bytes_of buffer.new ≡ (if is_ok result then joined (bytes_of buffer.old) value.now else bytes_of buffer.old) }
    ensures test { is_ok result ≡ nat_le (length (joined (bytes_of buffer.old) value.now)) 513 }
{
    if value.len() >= 513 - buffer.len() {
        return Err(Full);
    }
    buffer.append(value)?;
    buffer.push(b'\n')
}

fn type_or_message<'a>(event_type: &'a [u8]) -> &'a [u8]
    ensures { result.now ≡ typed event_type.now }
{
    match event_type {
        [] => b"message",
        _ => event_type,
    }
}
