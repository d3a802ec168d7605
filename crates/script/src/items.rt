// What stands within quotes, item by item.
ghost use Rattle.std.specs.Prelude.{◌≡◌};
ghost use Rattle.script.specs.Items.{hex_value, numbered, marked_item, item_of};

// A byte, however it is written, with the length of the item; or the quote that closes the text.
#[derive(Clone, Copy, Debug, PartialEq)]
pub enum Item {
    Byte(u8, usize),
    Close,
}

// The item at the front of what stands within quotes; none where something else stands there.
pub fn first_item(text: &[u8]) -> Option<Item>
    ensures { result ≡ item_of text.now }
{
    match text {
        [b'"', ..] => Some(Item::Close),
        [b'\\', rest @ ..] => marked_item(rest),
        [byte @ 0x20..=0x7e, ..] => Some(Item::Byte(*byte, 1)),
        _ => None,
    }
}

// The item that a backslash begins, by what follows that.
fn marked_item(rest: &[u8]) -> Option<Item>
    ensures { result ≡ marked_item rest.now }
{
    match rest {
        [byte @ (b'"' | b'\\'), ..] => Some(Item::Byte(*byte, 2)),
        [b'n', ..] => Some(Item::Byte(b'\n', 2)),
        [b'r', ..] => Some(Item::Byte(b'\r', 2)),
        [b'x', high, low, ..] => hex_item(*high, *low),
        _ => None,
    }
}

// The item of a backslash, x and these two digits of base sixteen.
fn hex_item(high: u8, low: u8) -> Option<Item>
    ensures { result ≡ numbered (hex_value high) (hex_value low) }
{
    Some(Item::Byte(hex_value(high)? * 16 + hex_value(low)?, 4))
}

// The value of a digit of base sixteen, in either letter case.
fn hex_value(digit: u8) -> Option<u8>
    ensures { result ≡ hex_value digit }
{
    char::from(digit).to_digit(16).map(|value| value as u8)
}
