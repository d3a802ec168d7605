// Streams in pieces. Reader and sink stay two: a sink is the caller's, and outlives the stream and its reader.
ghost use Rattle.std.specs.Prelude.{◌≡◌, ℕ, List, ◌++◌};
ghost use Rattle.std.specs.List.{flat_map};
ghost use Rattle.lines.specs.Reader.{fault_of, reads};
ghost use Rattle.lines.specs.Code.{reader_of, faults_said};
ghost use Rattle.reading.specs.Standard.{Before, new};
ghost use Rattle.reading.specs.Outcome.{Outcome, HasRead};

use lines::{Progress, Reader};
use sink::Sink;

// Reads the next piece of a stream. Whatever stream s the reader has read so far, from whatever state x of the sink, it has
// then read s followed by the piece, and stands as the standard and the limits say of that stream.
pub fn read_on<S: Sink>(reader: &mut Reader, piece: &[u8], sink: &mut S) -> Progress
    ensures reader { reader_of reader.new ≡ (reads S.Sink.refusal S.Sink.after (reader_of reader.old) (S.Sink.state sink.old) piece.now).reader }
    ensures sink { S.Sink.state sink.new ≡ (reads S.Sink.refusal S.Sink.after (reader_of reader.old) (S.Sink.state sink.old) piece.now).sink }
    ensures kept { result.kept ≡ (reads S.Sink.refusal S.Sink.after (reader_of reader.old) (S.Sink.state sink.old) piece.now).kept }
    ensures fault { faults_said result.fault ≡ fault_of (reader_of reader.new) }
    ensures joins { (b : Before) (x : S.Sink.State) (s : List ℕ) → HasRead S.Sink.refusal S.Sink.after b x s (reader_of reader.old) (S.Sink.state sink.old) → HasRead S.Sink.refusal S.Sink.after b x (s ++ piece.now) (reader_of reader.new) (S.Sink.state sink.new) }
    ensures standard { (b : Before) (x : S.Sink.State) (s : List ℕ) → HasRead S.Sink.refusal S.Sink.after b x s (reader_of reader.old) (S.Sink.state sink.old) → Outcome S.Sink.refusal S.Sink.after b x (s ++ piece.now) (reader_of reader.new) (S.Sink.state sink.new) }
{
    reader.read(piece, sink)
}

// Reads a stream with a new reader, whatever the pieces are. The reader and the sink then stand as the standard and the
// limits say of the pieces joined: events kept, last event ID, reconnection time, and the fault with its place.
pub fn read_pieces<S: Sink>(pieces: &[&[u8]], sink: &mut S) -> Reader
    ensures standard { Outcome S.Sink.refusal S.Sink.after new (S.Sink.state sink.old) (flat_map (λ p. p.now) pieces.now) (reader_of result) (S.Sink.state sink.new) }
{
    let mut reader = Reader::new();
    for piece in pieces {
        let _ = read_on(&mut reader, piece, sink);
    }
    reader
}
