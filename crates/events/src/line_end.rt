ghost use Rattle.std.specs.Prelude.{◌≡◌, Some, None, MatchResult};
ghost use Rattle.events.specs.LineEnd.{end_bytes, end_named};

use std::str::FromStr;

// How a sender ends its lines.
#[derive(Clone, Copy, Debug, PartialEq)]
pub enum LineEnd {
    Lf,
    CrLf,
    Cr,
}

impl LineEnd {
    // The bytes that end a line.
    pub fn bytes(self) -> &'static [u8]
        ensures { result.now ≡ end_bytes self }
    {
        match self {
            LineEnd::Lf => b"\n",
            LineEnd::CrLf => b"\r\n",
            LineEnd::Cr => b"\r",
        }
    }
}

// A word that names no line end.
#[derive(Clone, Copy, Debug, PartialEq)]
pub struct UnknownLineEnd;

// A line end by its name: `lf`, `crlf` or `cr`.
impl FromStr for LineEnd {
    type Err = UnknownLineEnd;

    ghost from_str_gives = { λ word r. MatchResult r (λ e. end_named word ≡ Some e) (λ _. end_named word ≡ None) };

    fn from_str(word: &str) -> Result<LineEnd, UnknownLineEnd> {
        match word {
            "lf" => Ok(LineEnd::Lf),
            "crlf" => Ok(LineEnd::CrLf),
            "cr" => Ok(LineEnd::Cr),
            _ => Err(UnknownLineEnd),
        }
    }
}
