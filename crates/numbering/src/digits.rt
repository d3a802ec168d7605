// Base ten, for every numbering.
ghost use Rattle.std.specs.Prelude.{◌≡◌, ◌++◌, length, drop, if◌then◌else◌, Some, None, decimal, nat_le};
ghost use Rattle.numbering.specs.Numeral.{numeral};

use decimal::number;
use itoa::Buffer;

// n in base ten at the front of `out`, and its length; none, and nothing written, where `out` is too short.
pub fn put_decimal(n: u32, out: &mut [u8]) -> Option<usize>
    ensures count { result ≡ (if nat_le (length (decimal n)) (length out.old) then Some (length (decimal n)) else None) }
    ensures out { out.new ≡ (if nat_le (length (decimal n)) (length out.old) then decimal n ++ drop (length (decimal n)) out.old else out.old) }
{
    let mut buffer = Buffer::new();
    let digits = buffer.format(n).as_bytes();
    // a test, since a part that is asked for by `get_mut` tells a proof none of its bytes
    if digits.len() > out.len() {
        return None;
    }
    out[..digits.len()].copy_from_slice(digits);
    Some(digits.len())
}

// The number from 1 to `most` that the bytes write in base ten without leading zeros, if there is one.
#[tactic(auto, using(crate::proofs::Reading::too_long))]
pub fn read_decimal(bytes: &[u8], most: u32) -> Option<u32>
    ensures { result ≡ numeral most bytes.now }
{
    let [b'1'..=b'9', ..] = bytes else {
        return None;
    };
    // a longer text is past every number of 32 bits, and need not be read
    if bytes.len() > 10 {
        return None;
    }
    let number = u32::try_from(number(bytes)?).ok()?;
    (number <= most).then_some(number)
}
