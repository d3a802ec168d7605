// Texts between quotes.
ghost use Rattle.std.specs.Prelude.{◌≡◌, IfOk};
ghost use Rattle.std.specs.Option.{option_map};
ghost use Rattle.script.specs.Code.{reading_of};
ghost use Rattle.script.specs.Unquoted.{unquoted, within};

use crate::items::{Item, first_item};
use std::alloc::{AllocError, Global};

// The bytes that a quoted text stands for, and what is behind its closing quote.
#[derive(Drop)]
pub struct Unquoted<'a> {
    pub bytes: Vec<u8>,
    pub rest: &'a [u8],
}

// The quoted text at the front of `text`; none where no such text stands there.
pub fn unquote<'a>(heap: Global, text: &'a [u8]) -> Result<Option<Unquoted<'a>>, AllocError>
    ensures { IfOk result (λ o. option_map reading_of o ≡ unquoted text.now) }
{
    match text {
        [b'"', inner @ ..] => read_within(heap, inner),
        _ => Ok(None),
    }
}

// What stands within quotes at the front of `inner`, up to the closing one.
#[tactic(auto, using(crate::proofs::Within::byte_lies))]
fn read_within<'a>(heap: Global, inner: &'a [u8]) -> Result<Option<Unquoted<'a>>, AllocError>
    ensures { IfOk result (λ o. option_map reading_of o ≡ within 0 inner.now) }
{
    let mut bytes = Vec::new(heap);
    let mut rest = inner;
    loop {
        match first_item(rest) {
            Some(Item::Byte(byte, length)) => {
                bytes.push(byte)?;
                rest = &rest[length..];
            }
            Some(Item::Close) => {
                let rest = &rest[1..];
                return Ok(Some(Unquoted { bytes, rest }));
            }
            None => return Ok(None),
        }
    }
}
