// Writing the events of a log.
ghost use Rattle.std.specs.Prelude.{◌≡◌, ◌≤◌, [], ◌∷◌, if◌then◌else◌, Some, None};
ghost use Rattle.events.specs.Entry.{entry_of};
ghost use Rattle.numbering.specs.Meaning.{has_text};
ghost use Rattle.writer.specs.Filled.{count_of, filled};
ghost use Rattle.writer.specs.Written.{written};
ghost use Rattle.wire.specs.Sent.{event as sent_event, Lawful};
ghost use Rattle.wire.specs.Laws.{Means};

use events::{Entry, LineEnd};
use numbering::Numbering;
use writer::write_event;

// Fills `out` with the bytes of the event of a number, from byte `from` on, and says how many; none, and nothing written, where the number has no text.
// These bytes, alone on a fresh stream, are that event alone.
pub fn write_numbered<N: Numbering>(
    numbering: &N,
    number: u32,
    event: &Entry,
    end: LineEnd,
    from: usize,
    out: &mut [u8],
) -> Option<usize>
    ensures count { result ≡ (if has_text N.Numbering.GREATEST number then Some (count_of from (written end (N.Numbering.text number) (entry_of event.now)) out.old) else None) }
    ensures out { out.new ≡ (if has_text N.Numbering.GREATEST number then filled from (written end (N.Numbering.text number) (entry_of event.now)) out.old else out.old) }
    ensures lawful { 1 ≤ number → number ≤ N.Numbering.GREATEST → Lawful (sent_event (N.Numbering.text number) (entry_of event.now)) }
    ensures alone { 1 ≤ number → number ≤ N.Numbering.GREATEST → Means (written end (N.Numbering.text number) (entry_of event.now)) (sent_event (N.Numbering.text number) (entry_of event.now) ∷ []) }
{
    // the longest text of any numbering, in fixed memory
    let mut id = [0; 32];
    let len = numbering.write(number, &mut id)?;
    Some(write_event(end, &id[..len], event, from, out))
}
