// What an event asks of a chain, read from its type and its data.
ghost use Rattle.std.specs.Prelude.{◌≡◌, ◌==◌, position};
ghost use Rattle.std.specs.Option.{option_map};
ghost use Rattle.events.specs.Event.{event_of};
ghost use Rattle.sink.specs.Numeral.{numeral};
ghost use Rattle.sink.specs.Chain.{insertion, removal, edit_of};
ghost use Rattle.sink.specs.Capped.{cap64, capped};

use events::Event;

// Past every place and every code, so that a larger number need not be told from it.
const PAST_ALL: u32 = 64;

// An edit of the row of codes.
#[derive(Clone, Copy, Debug, PartialEq)]
pub(crate) enum Edit {
    Insert { place: usize, code: usize },
    Remove { place: usize },
}

// The number that a text is: digits without a zero before others.
fn number(text: &[u8]) -> Option<usize>
    ensures { result ≡ option_map cap64 (numeral text.now) }
{
    match text {
        [b'0', _, ..] => None,
        _ => Some(decimal::capped(text, PAST_ALL)? as usize),
    }
}

// The place of the first space.
fn space(text: &[u8]) -> Option<usize>
    ensures { result ≡ position (λ b. b == 32) text.now }
{
    text.iter().position(|byte| *byte == b' ')
}

// A place and a code with a space between.
fn insert_in(text: &[u8]) -> Option<Edit>
    ensures { result ≡ capped (insertion text.now) }
{
    let at = space(text)?;
    let place = number(&text[..at])?;
    let code = number(&text[at + 1..])?;
    Some(Edit::Insert { place, code })
}

// A place.
fn remove_in(text: &[u8]) -> Option<Edit>
    ensures { result ≡ capped (removal text.now) }
{
    let place = number(text)?;
    Some(Edit::Remove { place })
}

// The edit that an event asks for, if it asks for one.
pub(crate) fn read(event: Event<'_>) -> Option<Edit>
    ensures { result ≡ capped (edit_of (event_of event.entry)) }
{
    if event.event_type == b"insert".as_slice() {
        insert_in(event.data)
    } else if event.event_type == b"remove".as_slice() {
        remove_in(event.data)
    } else {
        None
    }
}
