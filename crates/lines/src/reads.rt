// Reading a stream, byte by byte and piece by piece.
ghost use Rattle.std.specs.Prelude.{◌≡◌};
ghost use Rattle.decoder.specs.Machine.{step};
ghost use Rattle.decoder.specs.Code.{state_of};
ghost use Rattle.lines.specs.Text.{hand_chars};
ghost use Rattle.lines.specs.Reader.{fresh, restarted, last_id_of, retry_of, fault_of, push, reads};
ghost use Rattle.lines.specs.Code.{text_of, reader_of, fault_said, faults_said, stop_of, ran, pushed};

use crate::fault::{Fault, LineFault};
use crate::reader::{Progress, Reader};
use crate::text::Lines;
use decoder::Decoder;
use sink::Sink;

impl Reader {
    // A reader that has read nothing.
    pub fn new() -> Reader
        ensures { reader_of result ≡ fresh }
    {
        Reader {
            decoder: Decoder::new(),
            lines: Lines::new(),
            byte: 0,
            fault: None,
        }
    }

    // Begins a new stream: all but the last event ID and the reconnection time starts anew.
    pub fn restart(&mut self)
        ensures { reader_of self.new ≡ restarted (last_id_of (reader_of self.old)) (retry_of (reader_of self.old)) }
    {
        self.decoder = Decoder::new();
        self.lines.restart();
        self.byte = 0;
        self.fault = None;
    }

    // The last event ID.
    pub fn last_id(&self) -> &[u8]
        ensures { result.now ≡ last_id_of (reader_of self.now) }
    {
        self.lines.fields.last_id()
    }

    // The reconnection time in milliseconds.
    pub fn retry(&self) -> u32
        ensures { result ≡ retry_of (reader_of self.now) }
    {
        self.lines.fields.retry()
    }

    // The fault at which reading has stopped.
    pub fn fault(&self) -> Option<Fault>
        ensures { faults_said result ≡ fault_of (reader_of self.now) }
    {
        self.fault
    }

    // Reads one byte, and answers whether an event was kept. Once stopped it reads nothing, and answers the fault again.
    pub fn push<S: Sink>(&mut self, byte: u8, sink: &mut S) -> Result<bool, Fault>
        ensures came { pushed self.new (S.Sink.state sink.new) result ≡ push S.Sink.refusal S.Sink.after (reader_of self.old) (S.Sink.state sink.old) byte }
        ensures fault { stop_of fault_said result ≡ fault_of (reader_of self.new) }
    {
        if let Some(fault) = self.fault {
            return Err(fault);
        }
        match take_in(&mut self.decoder, &mut self.lines, byte, sink) {
            Ok(kept) => {
                self.byte = self.byte.saturating_add(1);
                Ok(kept)
            }
            Err(cause) => {
                let fault = Fault {
                    cause,
                    line: self.lines.number,
                    byte: self.byte,
                };
                self.fault = Some(fault);
                Err(fault)
            }
        }
    }

    // Reads a piece of the stream, up to the first fault.
    pub fn read<S: Sink>(&mut self, piece: &[u8], sink: &mut S) -> Progress
        ensures reader { reader_of self.new ≡ (reads S.Sink.refusal S.Sink.after (reader_of self.old) (S.Sink.state sink.old) piece.now).reader }
        ensures sink { S.Sink.state sink.new ≡ (reads S.Sink.refusal S.Sink.after (reader_of self.old) (S.Sink.state sink.old) piece.now).sink }
        ensures kept { result.kept ≡ (reads S.Sink.refusal S.Sink.after (reader_of self.old) (S.Sink.state sink.old) piece.now).kept }
        ensures fault { faults_said result.fault ≡ fault_of (reads S.Sink.refusal S.Sink.after (reader_of self.old) (S.Sink.state sink.old) piece.now).reader }
    {
        let mut kept = 0;
        for byte in piece {
            let Ok(event) = self.push(*byte, sink) else {
                break;
            };
            kept += usize::from(event);
        }
        Progress {
            kept,
            fault: self.fault,
        }
    }
}

// What a byte does to the text. One that passes as it stands is not pushed, which spares most of the work. It takes the two
// fields and no reader, since a contract on the reader would also have to say that byte and fault stay.
fn take_in<S: Sink>(
    decoder: &mut Decoder,
    lines: &mut Lines,
    byte: u8,
    sink: &mut S,
) -> Result<bool, LineFault>
    ensures decoder { state_of decoder.new ≡ (step (state_of decoder.old) byte).state }
    ensures lines { ran lines.new (S.Sink.state sink.new) result ≡ hand_chars S.Sink.refusal S.Sink.after (text_of lines.old) (S.Sink.state sink.old) (step (state_of decoder.old) byte).out }
{
    if decoder.passes(byte) {
        return lines.byte(byte, sink);
    }
    let given = decoder.push(byte);
    lines.given(given, sink)
}
