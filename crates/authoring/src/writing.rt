// The events that the lines of a text say, written one after the other.
ghost use Rattle.std.specs.Prelude.{◌≡◌, ◌++◌, IfOk};
ghost use Rattle.std.specs.Result.{result_err};
ghost use Rattle.events.specs.Entry.{entry_of};
ghost use Rattle.script.specs.Events.{event as says, event_said};
ghost use Rattle.script.specs.Lines.{all_lines};
ghost use Rattle.authoring.specs.Stream.{outcome, Wrote};

use crate::stop::Stop;
use events::{Entry, LineEnd, Refusal};
use numbering::Numbering;
use script::{Cause, Lines, event_line};
use std::alloc::{AllocError, Global};
use wire::write_numbered;

// How much of an event is written at once.
const PART: usize = 4_096;

// Writes the events that the lines of `text` say, numbered from 1 on, behind what is in `stream`. It stops at the first
// line that says no event or whose event is refused; what stands before it has then been written.
pub fn write_lines<N: Numbering>(
    heap: Global,
    numbering: &N,
    end: LineEnd,
    text: &[u8],
    stream: &mut Vec<u8>,
) -> Result<Option<Stop>, AllocError>
    ensures { IfOk result (λ stop. (stop ≡ (outcome N.Numbering.GREATEST N.Numbering.text end 1 (all_lines text.now)).stop) × (stream.new.items ≡ stream.old.items ++ (outcome N.Numbering.GREATEST N.Numbering.text end 1 (all_lines text.now)).bytes)) }
{
    let form = Form { numbering, end };
    for (before, text) in Lines::new(text).enumerate() {
        let line = before as u64 + 1;
        if let Err(cause) = form.write_line(heap, line, text, stream)? {
            return Ok(Some(Stop { line, cause }));
        }
    }
    Ok(None)
}

// How events are written.
#[derive(Drop)]
struct Form<'a, N: Numbering> {
    numbering: &'a N,
    end: LineEnd,
}

impl<'a, N: Numbering> Form<'a, N> {
    // Writes the event that a line says, under a number, unless something stops that.
    fn write_line(
        &self,
        heap: Global,
        number: u64,
        line: &[u8],
        stream: &mut Vec<u8>,
    ) -> Result<Result<(), Cause>, AllocError>
        ensures { IfOk result (λ o. Wrote N.Numbering.GREATEST N.Numbering.text self.now.end number (event_said line.now) stream.old.items stream.new.items (result_err o)) }
    {
        match event_line(heap, line)? {
            Ok(event) if number <= u64::from(self.numbering.last_number()) => {
                self.append(number as u32, &event, stream)
            }
            Ok(_) => Ok(Err(Cause::Refused(Refusal::NumbersUsed))),
            Err(cause) => Ok(Err(cause)),
        }
    }

    // Writes an event part by part; nothing where its number has no text.
    fn append(
        &self,
        number: u32,
        event: &Entry,
        stream: &mut Vec<u8>,
    ) -> Result<Result<(), Cause>, AllocError>
        ensures { IfOk result (λ o. Wrote N.Numbering.GREATEST N.Numbering.text self.now.end number (says (entry_of event.now)) stream.old.items stream.new.items (result_err o)) }
    {
        let mut part = [0u8; PART];
        let mut from = 0;
        loop {
            let Some(count) = write_numbered(
                self.numbering,
                number,
                event,
                self.end,
                from,
                &mut part,
            ) else {
                return Ok(Err(Cause::Refused(Refusal::NumbersUsed)));
            };
            stream.extend_from_slice(&part[..count])?;
            if count < PART {
                return Ok(Ok(()));
            }
            // only the part itself tells where the next one begins
            from += count;
        }
    }
}
