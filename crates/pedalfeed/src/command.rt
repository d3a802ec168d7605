// What the words of the command line ask for.
use decimal::number;
use events::{LineEnd, UnknownLineEnd};
use std::fmt;
use std::str::FromStr;

// What to do; with a number, the stream is handed on in pieces of that length.
#[derive(Clone, Copy)]
pub(crate) enum Command {
    Help,
    Read(Option<usize>),
    Count(Option<usize>),
    Journal,
    Write(Numbers, LineEnd),
}

// The numberings that a command line can name.
#[derive(Clone, Copy)]
pub(crate) enum Numbers {
    Decimal,
    Bank,
}

// Why words are no command.
#[derive(Clone, Copy, Debug, PartialEq)]
pub(crate) enum UsageError {
    // a number that is none of those that a piece can have
    BadPiece,
    TooManyWords,
    UnknownWord,
    // `write` with another number of words
    NoForm,
    UnknownNumbering,
    UnknownLineEnd,
}

impl fmt::Display for UsageError {
    fn fmt<W: fmt::Write>(&self, f: &mut fmt::Formatter<W>) -> fmt::Result {
        f.write_str(match self {
            UsageError::BadPiece => "a piece has 1 to 4096 bytes",
            UsageError::TooManyWords => "too many words",
            UsageError::UnknownWord => "unknown word",
            UsageError::NoForm => "write takes a numbering and a line end",
            UsageError::UnknownNumbering => "unknown numbering",
            UsageError::UnknownLineEnd => "unknown line end",
        })
    }
}

impl From<UnknownLineEnd> for UsageError {
    fn from(_: UnknownLineEnd) -> UsageError {
        UsageError::UnknownLineEnd
    }
}

impl FromStr for Numbers {
    type Err = UsageError;

    fn from_str(word: &str) -> Result<Numbers, UsageError> {
        match word {
            "decimal" => Ok(Numbers::Decimal),
            "bank" => Ok(Numbers::Bank),
            _ => Err(UsageError::UnknownNumbering),
        }
    }
}

pub(crate) fn usage() -> &'static str {
    "usage: pedalfeed read [N]                print the events of the stream on standard input
       pedalfeed count [N]               print how many there are
       pedalfeed journal                 print the events of the journal on standard input
       pedalfeed write [NUMBERING END]   write the events on standard input as a stream
       pedalfeed help                    print this
The first two print the last event ID, the reconnection time and the fault, if there is one.
N, from 1 to 4096, is the length of the pieces that the stream is handed on in.
write takes an event from each line, its type and its data between quotes. NUMBERING is decimal
or bank, END is lf, crlf or cr; without them it is decimal and lf.
"
}

// The command that the words ask for, the program's own name first.
pub(crate) fn asked(words: &[String]) -> Result<Command, UsageError> {
    match words {
        [] | [_] => Ok(Command::Help),
        [_, word] => one_word(word),
        [_, word, more @ ..] => with_more(word, more),
    }
}

fn one_word(word: &str) -> Result<Command, UsageError> {
    match word {
        "help" => Ok(Command::Help),
        "journal" => Ok(Command::Journal),
        "write" => Ok(Command::Write(Numbers::Decimal, LineEnd::Lf)),
        _ => with_piece(word, None),
    }
}

fn with_more(word: &str, more: &[String]) -> Result<Command, UsageError> {
    match (word, more) {
        ("write", [numbering, end]) => Ok(Command::Write(numbering.parse()?, end.parse()?)),
        ("write", _) => Err(UsageError::NoForm),
        (_, [number]) => with_piece(word, Some(piece_of(number)?)),
        _ => Err(UsageError::TooManyWords),
    }
}

fn piece_of(word: &str) -> Result<usize, UsageError> {
    match number(word.as_bytes()) {
        Some(piece @ 1..=4096) => Ok(piece as usize),
        _ => Err(UsageError::BadPiece),
    }
}

fn with_piece(word: &str, piece: Option<usize>) -> Result<Command, UsageError> {
    match word {
        "read" => Ok(Command::Read(piece)),
        "count" => Ok(Command::Count(piece)),
        "help" | "journal" => Err(UsageError::TooManyWords),
        _ => Err(UsageError::UnknownWord),
    }
}
