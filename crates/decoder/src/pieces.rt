// A stream in pieces, decoded into one text.
ghost use Rattle.std.specs.Prelude.{◌≡◌, true, ◌++◌, is_ok, IfOk, if◌then◌else◌, IsUtf8};
ghost use Rattle.std.specs.List.{flat_map};
ghost use Rattle.machine.specs.Run.{also, run};
ghost use Rattle.decoder.specs.Standard.{text, decoded};
ghost use Rattle.decoder.specs.Machine.{reads};
ghost use Rattle.decoder.specs.Code.{bytes_of, chars_of, state_of};

use crate::character::{Given, REPLACEMENT};
use crate::decoder::Decoder;
use std::alloc::{AllocError, Global};

fn add_given(out: &mut Vec<u8>, given: Given) -> Result<(), AllocError>
    ensures { is_ok result ≡ true → out.new.items ≡ out.old.items ++ text (chars_of given) }
{
    match given {
        Given::Nothing => Ok(()),
        Given::One(c) => out.extend_from_slice(c.as_bytes()),
        Given::Replaced(c) => {
            out.extend_from_slice(REPLACEMENT.as_bytes())?;
            out.extend_from_slice(c.as_bytes())
        }
    }
}

fn add_piece(decoder: &mut Decoder, piece: &[u8], out: &mut Vec<u8>) -> Result<(), AllocError>
    ensures { is_ok result ≡ true → record { state = state_of decoder.new; out = out.new.items } ≡ also out.old.items (run reads (state_of decoder.old) piece.now) }
{
    for byte in piece {
        add_given(out, decoder.push(*byte))?;
    }
    Ok(())
}

// The text of a stream so far that came in pieces, whatever the pieces are.
pub fn decode_pieces(heap: Global, pieces: &[&[u8]]) -> Result<Vec<u8>, AllocError>
    ensures text { IfOk result (λ v. v.items ≡ decoded (flat_map (λ p. p.now) pieces.now)) }
    ensures utf8 { IfOk result (λ v. IsUtf8 v.items) }
{
    let mut decoder = Decoder::new();
    let mut out = Vec::new(heap);
    for piece in pieces {
        add_piece(&mut decoder, piece, &mut out)?;
    }
    Ok(out)
}

#[cfg(test)]
mod tests {
    use super::*;
    use std::process::Abort;
    use std::test::Fail;

    fn gives(rt: &impl Abort, heap: Global, pieces: &[&[u8]], text: &[u8]) -> Result<(), Fail> {
        let out = decode_pieces(heap, pieces)?;
        assert!(rt; out.as_slice() == text);
        Ok(())
    }

    #[test]
    fn broken_character(rt: HostRuntime) -> Result<(), Fail> {
        gives(&rt, rt.alloc(), &[b"\xE2\x82A"], b"\xEF\xBF\xBDA")?;
        gives(&rt, rt.alloc(), &[b"\xE2", b"\x82", b"A"], b"\xEF\xBF\xBDA")
    }

    #[test]
    fn broken_by_a_stray_byte(rt: HostRuntime) -> Result<(), Fail> {
        gives(&rt, rt.alloc(), &[b"\xF0\x80"], b"\xEF\xBF\xBD\xEF\xBF\xBD")?;
        gives(
            &rt,
            rt.alloc(),
            &[b"\xF0", b"", b"\x80"],
            b"\xEF\xBF\xBD\xEF\xBF\xBD",
        )
    }

    #[test]
    fn mark_at_the_start_only(rt: HostRuntime) -> Result<(), Fail> {
        gives(
            &rt,
            rt.alloc(),
            &[b"\xEF\xBB\xBFa\xEF\xBB\xBF"],
            b"a\xEF\xBB\xBF",
        )?;
        gives(
            &rt,
            rt.alloc(),
            &[b"\xEF\xBB", b"\xBFa\xEF", b"\xBB\xBF"],
            b"a\xEF\xBB\xBF",
        )
    }
}
