// The characters that a decoder gives, as their bytes.
ghost use Rattle.std.specs.Prelude.{◌≡◌};
ghost use Rattle.decoder.specs.Standard.{is_mark};
ghost use Rattle.decoder.specs.Code.{bytes_of};

// A character, as its bytes in UTF-8.
#[derive(Clone, Copy, Debug, PartialEq)]
pub enum Character {
    One([u8; 1]),
    Two([u8; 2]),
    Three([u8; 3]),
    Four([u8; 4]),
}

// U+FFFD, which stands for what is not well-formed.
pub const REPLACEMENT: Character = Character::Three([0xEF, 0xBF, 0xBD]);

// U+FEFF, the byte order mark.
const MARK: Character = Character::Three([0xEF, 0xBB, 0xBF]);

impl Character {
    // Its bytes in UTF-8.
    pub fn as_bytes(&self) -> &[u8]
        ensures { result.now ≡ bytes_of self.now }
    {
        match self {
            Character::One(bytes) => bytes,
            Character::Two(bytes) => bytes,
            Character::Three(bytes) => bytes,
            Character::Four(bytes) => bytes,
        }
    }

    // Whether this is the byte order mark.
    pub(crate) fn is_mark(self) -> bool
        ensures { result ≡ is_mark (bytes_of self) }
    {
        self == MARK
    }
}

// The characters that one byte gives: none, one, or U+FFFD and then one.
#[derive(Clone, Copy, Debug, PartialEq)]
pub enum Given {
    Nothing,
    One(Character),
    Replaced(Character),
}
