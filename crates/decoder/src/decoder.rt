// The decoder: what it holds between two bytes, and what a byte does.
ghost use Rattle.std.specs.Prelude.{◌≡◌, [], ◌∷◌};
ghost use Rattle.machine.specs.Run.{also};
ghost use Rattle.decoder.specs.Standard.{lead_of, second, lies, following, replacement};
ghost use Rattle.decoder.specs.Machine.{between, begun, advance, step, passes, fresh};
ghost use Rattle.decoder.specs.Code.{bytes_of, reading_of, state_of, chars_of, begun_turn, given_turn};

use crate::character::{Character, Given, REPLACEMENT};
use crate::width::width;

// The bytes of an unfinished character, by how many they are of how many. A state and no closure or iterator, since a
// stream may be cut after any byte and a decoder has no heap.
#[derive(Clone, Copy)]
enum Pending {
    Nothing,
    OneOfTwo(u8),
    OneOfThree(u8),
    TwoOfThree(u8, u8),
    OneOfFour(u8),
    TwoOfFour(u8, u8),
    ThreeOfFour(u8, u8, u8),
}

// What a byte means where a character may begin.
fn begin(byte: u8) -> (Pending, Option<Character>)
    ensures { begun_turn result ≡ begun (lead_of byte) byte }
{
    match width(byte) {
        0 => (Pending::Nothing, Some(REPLACEMENT)),
        1 => (Pending::Nothing, Some(Character::One([byte]))),
        2 => (Pending::OneOfTwo(byte), None),
        3 => (Pending::OneOfThree(byte), None),
        _ => (Pending::OneOfFour(byte), None),
    }
}

// What a byte means that does not go on the character before it.
fn restart(byte: u8) -> (Pending, Given)
    ensures { given_turn result ≡ also (replacement ∷ []) (begun (lead_of byte) byte) }
{
    let (pending, begun) = begin(byte);
    let given = begun.map_or(Given::One(REPLACEMENT), Given::Replaced);
    (pending, given)
}

// Whether `byte` may be the first after the lead byte `lead`.
fn is_second(lead: u8, byte: u8) -> bool
    ensures { result ≡ lies (second lead) byte }
{
    match lead {
        0xE0 => matches!(byte, 0xA0..=0xBF),
        0xED => matches!(byte, 0x80..=0x9F),
        0xF0 => matches!(byte, 0x90..=0xBF),
        0xF4 => matches!(byte, 0x80..=0x8F),
        _ => is_following(byte),
    }
}

fn is_following(byte: u8) -> bool
    ensures { result ≡ lies following byte }
{
    matches!(byte, 0x80..=0xBF)
}

impl Pending {
    // What a byte means after these bytes.
    fn read(self, byte: u8) -> (Pending, Given)
        ensures { given_turn result ≡ advance (reading_of self) byte }
    {
        match self {
            Pending::Nothing => {
                let (pending, begun) = begin(byte);
                (pending, begun.map_or(Given::Nothing, Given::One))
            }
            Pending::OneOfTwo(a) if is_second(a, byte) => whole(Character::Two([a, byte])),
            Pending::OneOfThree(a) if is_second(a, byte) => partial(Pending::TwoOfThree(a, byte)),
            Pending::TwoOfThree(a, b) if is_following(byte) => whole(Character::Three([
                a, b, byte,
            ])),
            Pending::OneOfFour(a) if is_second(a, byte) => partial(Pending::TwoOfFour(a, byte)),
            Pending::TwoOfFour(a, b) if is_following(byte) => {
                partial(Pending::ThreeOfFour(a, b, byte))
            }
            Pending::ThreeOfFour(a, b, c) if is_following(byte) => {
                whole(Character::Four([a, b, c, byte]))
            }
            _ => restart(byte),
        }
    }
}

fn whole(c: Character) -> (Pending, Given)
    ensures { given_turn result ≡ record { state = between; out = bytes_of c ∷ [] } }
{
    (Pending::Nothing, Given::One(c))
}

fn partial(pending: Pending) -> (Pending, Given)
    ensures { given_turn result ≡ record { state = reading_of pending; out = [] } }
{
    (pending, Given::Nothing)
}

// A decoder of one stream.
#[derive(Clone, Copy)]
pub struct Decoder {
    // a character has come, so that U+FEFF is no mark any more
    started: bool,
    pending: Pending,
}

impl Decoder {
    // A decoder at the start of a stream.
    pub fn new() -> Decoder
        ensures { state_of result ≡ fresh }
    {
        Decoder {
            started: false,
            pending: Pending::Nothing,
        }
    }

    // Whether `byte` is a character as it stands, and leaves the decoder as it is: so it is with most bytes, and a caller
    // may pass such a byte on without pushing it.
    pub fn passes(&self, byte: u8) -> bool
        ensures { result ≡ passes (state_of self.now) byte }
    {
        self.started && byte.is_ascii() && matches!(self.pending, Pending::Nothing)
    }

    // Reads the next byte of the stream, and gives the characters that are then known.
    pub fn push(&mut self, byte: u8) -> Given
        ensures state { state_of self.new ≡ (step (state_of self.old) byte).state }
        ensures out { chars_of result ≡ (step (state_of self.old) byte).out }
    {
        let (pending, given) = self.pending.read(byte);
        self.pending = pending;
        // past the first character no mark is looked for, so what came is not looked at
        if self.started {
            return given;
        }
        self.started = given != Given::Nothing;
        match given {
            Given::One(c) if c.is_mark() => Given::Nothing,
            given => given,
        }
    }
}
