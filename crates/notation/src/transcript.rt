// A sink that writes each event down in a line.
ghost use Rattle.std.specs.Prelude.{◌≡◌, ℕ, ◌+◌, ◌<◌, List, [], ◌∷◌, ◌++◌, length, take, is_ok, IfOk, if◌then◌else◌, nat_le};
ghost use Rattle.sink.specs.Answer.{answer};
ghost use Rattle.events.specs.Event.{event_of};
ghost use Rattle.notation.specs.Kept.{text_of};
ghost use Rattle.notation.specs.Quoted.{hex_of, escaped, quoted, note_line, event_line};
ghost use Rattle.notation.specs.Transcript.{clipped, transcript_after, transcript_refusal};

use crate::page::Transcript;
use events::Event;
use sink::{Sink, SinkFault};
use std::alloc::{AllocError, Global};

// The longest text.
const CAPACITY: usize = 262144;

// The memory for it, with a byte more: a text that has that byte too does not fit.
const RESERVED: usize = 262145;

// The number that an event is refused with where its line does not fit.
const TRANSCRIPT_FULL: u32 = 29;

// A digit of base sixteen. What the library has for it gives a text, or a character that may be none.
fn hex_digit(digit: u8) -> u8
    requires { digit < 16 }
    ensures { result ≡ hex_of digit }
{
    if digit < 10 {
        b'0' + digit
    } else {
        b'a' + (digit - 10)
    }
}

impl Transcript {
    // A transcript without text, if there is memory for it.
    pub fn new(heap: Global) -> Result<Transcript, AllocError>
        ensures { IfOk result (λ t. text_of t ≡ []) }
    {
        let text = Vec::with_capacity(heap, RESERVED)?;
        Ok(Transcript { text })
    }

    // The text so far.
    pub fn text(&self) -> &[u8]
        ensures { result.now ≡ text_of self.now }
    {
        self.text.as_slice()
    }

    // Forgets the text.
    pub fn clear(&mut self)
        ensures { text_of self.new ≡ [] }
    {
        self.text.clear();
    }

    // Writes a byte, if the memory takes it.
    fn put(&mut self, byte: u8)
        ensures { text_of self.new ≡ clipped (text_of self.old) (byte ∷ []) }
    {
        if self.text.len() < RESERVED {
            self.text.push_reserved(byte);
        }
    }

    // Writes bytes as they stand.
    fn put_all(&mut self, bytes: &[u8])
        ensures { text_of self.new ≡ clipped (text_of self.old) bytes.now }
    {
        for byte in bytes {
            self.put(*byte);
        }
    }

    // Writes a byte as it stands within quotes.
    fn put_escaped(&mut self, byte: u8)
        ensures { text_of self.new ≡ clipped (text_of self.old) (escaped byte) }
    {
        match byte {
            b'"' | b'\\' => self.put_all(&[b'\\', byte]),
            b'\n' => self.put_all(b"\\n"),
            b'\r' => self.put_all(b"\\r"),
            0x20..=0x7e => self.put(byte),
            _ => self.put_all(&[b'\\', b'x', hex_digit(byte / 16), hex_digit(byte % 16)]),
        }
    }

    // Writes bytes between quotes.
    fn put_quoted(&mut self, bytes: &[u8])
        ensures { text_of self.new ≡ clipped (text_of self.old) (quoted bytes.now) }
    {
        self.put(b'"');
        for byte in bytes {
            self.put_escaped(*byte);
        }
        self.put(b'"');
    }

    // Takes back what was written behind `before` bytes, and refuses it, if the text is too long now.
    fn settle(&mut self, before: usize) -> Result<(), SinkFault>
        ensures text { text_of self.new ≡ (if is_ok result then text_of self.old else take before (text_of self.old)) }
        ensures answer { result ≡ answer (if nat_le (length (text_of self.old)) 262144 then 0 else 29) }
    {
        if self.text.len() > CAPACITY {
            self.text.truncate(before);
            return Err(SinkFault {
                number: TRANSCRIPT_FULL,
            });
        }
        Ok(())
    }

    // Writes a line of a word and bytes between quotes, or nothing where it does not fit.
    pub fn note(&mut self, word: &[u8], bytes: &[u8]) -> Result<(), SinkFault>
        ensures text { text_of self.new ≡ (if is_ok result then text_of self.old ++ note_line word.now bytes.now else text_of self.old) }
        ensures answer { result ≡ answer (if nat_le (length (text_of self.old) + length (note_line word.now bytes.now)) 262144 then 0 else 29) }
    {
        let before = self.text.len();
        self.put_note(word, bytes);
        self.settle(before)
    }

    fn put_note(&mut self, word: &[u8], bytes: &[u8])
        ensures { text_of self.new ≡ clipped (text_of self.old) (note_line word.now bytes.now) }
    {
        self.put_all(word);
        self.put(b' ');
        self.put_quoted(bytes);
        self.put(b'\n');
    }

    // Writes the line of an event.
    fn put_event(&mut self, event: Event<'_>)
        ensures { text_of self.new ≡ clipped (text_of self.old) (event_line (event_of event.entry)) }
    {
        self.put_all(b"event ");
        self.put_quoted(event.id);
        self.put(b' ');
        self.put_quoted(event.event_type);
        self.put(b' ');
        self.put_quoted(event.data);
        self.put(b'\n');
    }
}

impl Sink for Transcript {
    ghost State = { List ℕ };

    ghost fresh = { λ text. text ≡ [] };

    ghost state = { text_of };

    ghost refusal = { transcript_refusal };

    ghost after = { transcript_after };

    fn keep(&mut self, event: Event<'_>) -> Result<(), SinkFault> {
        let before = self.text.len();
        self.put_event(event);
        self.settle(before)
    }
}
