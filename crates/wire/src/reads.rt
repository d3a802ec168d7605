// Reading what was sent.
ghost use Rattle.std.specs.Prelude.{◌≡◌, List};
ghost use Rattle.std.specs.List.{flat_map};
ghost use Rattle.events.specs.declared.line_end.LineEnd.{LineEnd};
ghost use Rattle.lines.specs.Reader.{reads};
ghost use Rattle.lines.specs.Code.{reader_of};
ghost use Rattle.wire.specs.Boundary.{AtBoundary};
ghost use Rattle.wire.specs.Sent.{Sent, AllLawful, stream};
ghost use Rattle.wire.specs.Laws.{ReadAsSent};

use lines::Reader;
use reading::read_on;
use sink::Sink;

// Reads pieces of a stream, whatever they are. Where the reader stood at a block boundary, and the pieces joined are what a sender sent, the sink has
// been offered exactly the events sent, in order, up to the first that it refused; and where it refused none, the reader is at a block boundary again.
pub fn read_sent<S: Sink>(reader: &mut Reader, pieces: &[&[u8]], sink: &mut S)
    ensures reader { reader_of reader.new ≡ (reads S.Sink.refusal S.Sink.after (reader_of reader.old) (S.Sink.state sink.old) (flat_map (λ p. p.now) pieces.now)).reader }
    ensures sink { S.Sink.state sink.new ≡ (reads S.Sink.refusal S.Sink.after (reader_of reader.old) (S.Sink.state sink.old) (flat_map (λ p. p.now) pieces.now)).sink }
    ensures sent { (e : LineEnd) (items : List Sent) → AllLawful items → flat_map (λ p. p.now) pieces.now ≡ stream e items → AtBoundary (reader_of reader.old) → ReadAsSent S.Sink.refusal S.Sink.after items (reader_of reader.old) (S.Sink.state sink.old) (reader_of reader.new) (S.Sink.state sink.new) }
{
    for piece in pieces {
        let _ = read_on(reader, piece, sink);
    }
}
