// Lines that give an event by its type and its data.
ghost use Rattle.std.specs.Prelude.{◌≡◌, IfOk};
ghost use Rattle.script.specs.Code.{said_of};
ghost use Rattle.script.specs.Events.{event_said};

use crate::texts::two_texts;
use events::{Entry, Refusal};
use std::alloc::{AllocError, Global};

// Why a line gives no event.
#[derive(Clone, Copy, Debug, PartialEq)]
pub enum Cause {
    // its event is refused
    Refused(Refusal),
    // it is not a type and data between quotes
    Unreadable,
}

// The event of a line whose two quoted texts are to be a type and data.
pub fn event_line(heap: Global, line: &[u8]) -> Result<Result<Entry, Cause>, AllocError>
    ensures { IfOk result (λ l. said_of l ≡ event_said line.now) }
{
    let Some(texts) = two_texts(heap, line)? else {
        return Ok(Err(Cause::Unreadable));
    };
    Ok(Entry::new(&texts.first, &texts.second).map_err(Cause::Refused))
}
