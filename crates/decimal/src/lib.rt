// Numbers in base ten, as text.

#![tactic(auto)]

ghost use Rattle.std.specs.Prelude.{◌≡◌};
ghost use Rattle.decimal.specs.Decimal.{capped_digit, capped_number};

// The number that the digits write, at most `most`; none if there is another byte than a digit, or no byte.
pub fn capped(text: &[u8], most: u32) -> Option<u32>
    ensures { result ≡ capped_number most text.now }
{
    let number = number(text)?;
    Some(number.min(u64::from(most)) as u32)
}

// The same, at most 2^64 - 1.
pub fn number(text: &[u8]) -> Option<u64>
    ensures { result ≡ capped_number 18446744073709551615 text.now }
{
    if text.is_empty() {
        return None;
    }
    let mut number = 0;
    for byte in text {
        number = one_more(number, *byte)?;
    }
    Some(number)
}

// One digit more behind a number.
fn one_more(number: u64, byte: u8) -> Option<u64>
    ensures { result ≡ capped_digit 18446744073709551615 number byte }
{
    match byte {
        b'0'..=b'9' => Some(
            number
                .saturating_mul(10)
                .saturating_add(u64::from(byte - b'0')),
        ),
        _ => None,
    }
}
