// Quoted text, read back. It is no twin of `script::unquote`: any byte may stand for itself, and nothing stands behind the closing quote.
ghost use Rattle.std.specs.Prelude.{◌<◌, length, OnOk};

use anyhow::{anyhow, ensure};

// What is said of other text than quoted text.
const OTHER_TEXT: &str = "not in the notation of quoted text";

// .. and of text that stops within quotes.
const NO_END: &str = "quoted text has no end";

// The bytes that a quoted text stands for, put behind those that are there.
pub(crate) fn unquote(quoted: &[u8], bytes: &mut Vec<u8>) -> anyhow::Result<()> {
    let mut rest = match quoted {
        [b'"', rest @ ..] => rest,
        [] => return Err(anyhow!(NO_END)),
        _ => return Err(anyhow!(OTHER_TEXT)),
    };
    loop {
        match item(&mut rest) {
            Ok(Some(byte)) => bytes.push(byte)?,
            Ok(None) => break,
            Err(why) => return Err(anyhow!(why)),
        }
    }
    ensure!(rest.is_empty(), OTHER_TEXT);
    Ok(())
}

// Takes what stands next, for the byte that it stands for; none at the closing quote. What is wrong is told in words, since an
// `anyhow::Error` is large, and would be handed on for every byte.
fn item(rest: &mut &[u8]) -> Result<Option<u8>, &'static str>
    ensures { OnOk result (length rest.new.now < length rest.old.now) }
{
    match next(rest)? {
        b'"' => Ok(None),
        b'\\' => Ok(Some(escaped(rest)?)),
        byte => Ok(Some(byte)),
    }
}

// Takes the next byte.
fn next(rest: &mut &[u8]) -> Result<u8, &'static str>
    ensures { OnOk result (length rest.new.now < length rest.old.now) }
{
    rest.split_off_first().copied().ok_or(NO_END)
}

// Takes what stands behind a backslash, for the byte that it stands for.
fn escaped(rest: &mut &[u8]) -> Result<u8, &'static str>
    ensures { OnOk result (length rest.new.now < length rest.old.now) }
{
    match next(rest)? {
        byte @ (b'"' | b'\\') => Ok(byte),
        b'n' => Ok(b'\n'),
        b'r' => Ok(b'\r'),
        b'x' => Ok(hex_value(next(rest)?)? << 4 | hex_value(next(rest)?)?),
        _ => Err(OTHER_TEXT),
    }
}

// The value of a digit of base sixteen, which has no upper case here.
fn hex_value(digit: u8) -> Result<u8, &'static str> {
    match digit {
        b'0'..=b'9' => Ok(digit - b'0'),
        b'a'..=b'f' => Ok(digit - b'a' + 10),
        _ => Err("no hexadecimal digit"),
    }
}
