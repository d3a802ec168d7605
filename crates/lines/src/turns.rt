// What a character does to the line that is being built.
ghost use Rattle.std.specs.Prelude.{◌≡◌, [], ◌∷◌};
ghost use Rattle.decoder.specs.Code.{bytes_of, chars_of};
ghost use Rattle.fields.specs.Block.{unread};
ghost use Rattle.lines.specs.Line.{ended, longer};
ghost use Rattle.lines.specs.Text.{begun, turned, hand_turn, hand_char, hand_chars};
ghost use Rattle.lines.specs.Code.{text_of, appended, handed, ran};

use crate::fault::LineFault;
use crate::text::Lines;
use buffer::Buffer;
use decoder::{Character, Given, REPLACEMENT};
use fields::Fields;
use sink::Sink;

impl Lines {
    pub(crate) fn new() -> Lines
        ensures { text_of result ≡ begun unread }
    {
        Lines {
            line: Buffer::new(),
            after_cr: false,
            number: 1,
            fields: Fields::new(),
        }
    }

    // A new stream, with the last event ID and the reconnection time as they are.
    pub(crate) fn restart(&mut self)
        ensures { text_of self.new ≡ begun (text_of self.old).held }
    {
        self.line.clear();
        self.after_cr = false;
        self.number = 1;
        self.fields.renew();
    }

    // Text that ends no line.
    fn append(&mut self, bytes: &[u8]) -> Result<(), LineFault>
        ensures { appended self.new result ≡ turned (text_of self.old) (longer (text_of self.old).line bytes.now) }
    {
        self.line.append(bytes)?;
        self.after_cr = false;
        Ok(())
    }

    // The end of a line, by a CR or not.
    fn end<S: Sink>(&mut self, cr: bool, sink: &mut S) -> Result<bool, LineFault>
        ensures { handed self.new (S.Sink.state sink.new) result ≡ hand_turn S.Sink.refusal S.Sink.after (text_of self.old) (S.Sink.state sink.old) (ended (record { after_cr = cr; built = [] }) (text_of self.old).line.built) }
    {
        let kept = self.fields.line(self.line.as_slice(), sink)?;
        self.line.clear();
        self.after_cr = cr;
        self.number = self.number.saturating_add(1);
        Ok(kept)
    }

    // A character of one byte. Answers whether it kept an event.
    pub(crate) fn byte<S: Sink>(&mut self, byte: u8, sink: &mut S) -> Result<bool, LineFault>
        ensures { handed self.new (S.Sink.state sink.new) result ≡ hand_char S.Sink.refusal S.Sink.after (text_of self.old) (S.Sink.state sink.old) (byte ∷ []) }
    {
        match byte {
            b'\n' if self.after_cr => {
                self.after_cr = false;
                Ok(false)
            }
            b'\n' => self.end(false, sink),
            b'\r' => self.end(true, sink),
            _ => {
                self.append(&[byte])?;
                Ok(false)
            }
        }
    }

    // A character of the text. Answers whether it kept an event.
    fn character<S: Sink>(&mut self, c: Character, sink: &mut S) -> Result<bool, LineFault>
        ensures { handed self.new (S.Sink.state sink.new) result ≡ hand_char S.Sink.refusal S.Sink.after (text_of self.old) (S.Sink.state sink.old) (bytes_of c) }
    {
        // two and three bytes by themselves, so that they are copied with a length that the compiler knows
        match c.as_bytes() {
            [byte] => return self.byte(*byte, sink),
            [a, b] => self.append(&[*a, *b])?,
            [a, b, c] => self.append(&[*a, *b, *c])?,
            bytes => self.append(bytes)?,
        }
        Ok(false)
    }

    // The characters that a byte gave. Answers whether they kept an event.
    pub(crate) fn given<S: Sink>(&mut self, given: Given, sink: &mut S) -> Result<bool, LineFault>
        ensures { ran self.new (S.Sink.state sink.new) result ≡ hand_chars S.Sink.refusal S.Sink.after (text_of self.old) (S.Sink.state sink.old) (chars_of given) }
    {
        match given {
            Given::Nothing => Ok(false),
            Given::One(c) => self.character(c, sink),
            Given::Replaced(c) => {
                self.append(REPLACEMENT.as_bytes())?;
                self.character(c, sink)
            }
        }
    }
}
