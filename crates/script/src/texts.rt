// Quoted texts as the words of a line.
ghost use Rattle.std.specs.Prelude.{◌≡◌, ◌≤◌, length, IfOk};
ghost use Rattle.std.specs.List.{take_while};
ghost use Rattle.std.specs.Option.{option_map};
ghost use Rattle.script.specs.Code.{reading_of, texts_of};
ghost use Rattle.script.specs.Texts.{blank, unblanked, word_ends, next_text, two_texts};

use crate::quoted::{Unquoted, unquote};
use std::alloc::{AllocError, Global};

// The two texts of a line.
#[derive(Drop)]
pub struct TwoTexts {
    pub first: Vec<u8>,
    pub second: Vec<u8>,
}

// The text without the blanks, spaces and tabs, at its front.
pub fn skip_blanks<'a>(text: &'a [u8]) -> &'a [u8]
    ensures { result.now ≡ unblanked text.now }
{
    &text[blank_count(text)..]
}

// How many blanks stand at the front of a text.
fn blank_count(text: &[u8]) -> usize
    ensures count { result ≡ length (take_while blank text.now) }
    ensures within { result ≤ length text.now }
{
    text.iter().take_while(|byte| is_blank(**byte)).count()
}

fn is_blank(byte: u8) -> bool
    ensures { result ≡ blank byte }
{
    matches!(byte, b' ' | b'\t')
}

// Whether a word ends where the line goes on so: at a blank, or at the end.
fn word_ends(rest: &[u8]) -> bool
    ensures { result ≡ word_ends rest.now }
{
    rest.first().is_none_or(|byte| is_blank(*byte))
}

// The next word of a line, if it is a quoted text.
pub fn next_text<'a>(heap: Global, line: &'a [u8]) -> Result<Option<Unquoted<'a>>, AllocError>
    ensures { IfOk result (λ o. option_map reading_of o ≡ next_text line.now) }
{
    Ok(unquote(heap, skip_blanks(line))?.filter(|text| word_ends(text.rest)))
}

// The two texts of a line; none where it has other words, or more, or fewer.
pub fn two_texts(heap: Global, line: &[u8]) -> Result<Option<TwoTexts>, AllocError>
    ensures { IfOk result (λ o. option_map texts_of o ≡ two_texts line.now) }
{
    let Some(first) = next_text(heap, line)? else {
        return Ok(None);
    };
    let Some(second) = next_text(heap, first.rest)? else {
        return Ok(None);
    };
    if skip_blanks(second.rest).is_empty() {
        let first = first.bytes;
        let second = second.bytes;
        Ok(Some(TwoTexts { first, second }))
    } else {
        Ok(None)
    }
}
