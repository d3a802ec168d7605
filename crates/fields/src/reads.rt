// The field of a line, by its bytes.
ghost use Rattle.std.specs.Prelude.{◌≡◌};
ghost use Rattle.fields.specs.Field.{field_of};
ghost use Rattle.fields.specs.Code.{field_said};

use crate::field::Field;

// The field that a line says. Three patterns for each name, since they tell name, colon and space at one look.
pub fn field_of<'a>(line: &'a [u8]) -> Field<'a>
    ensures { field_said result ≡ field_of line.now }
{
    match line {
        [b':', ..] => Field::Comment,
        [b'd', b'a', b't', b'a', b':', b' ', rest @ ..] => Field::Data(rest),
        [b'd', b'a', b't', b'a', b':', rest @ ..] => Field::Data(rest),
        [b'd', b'a', b't', b'a'] => Field::Data(&[]),
        [b'e', b'v', b'e', b'n', b't', b':', b' ', rest @ ..] => Field::Event(rest),
        [b'e', b'v', b'e', b'n', b't', b':', rest @ ..] => Field::Event(rest),
        [b'e', b'v', b'e', b'n', b't'] => Field::Event(&[]),
        [b'i', b'd', b':', b' ', rest @ ..] => Field::Id(rest),
        [b'i', b'd', b':', rest @ ..] => Field::Id(rest),
        [b'i', b'd'] => Field::Id(&[]),
        [b'r', b'e', b't', b'r', b'y', b':', b' ', rest @ ..] => Field::Retry(rest),
        [b'r', b'e', b't', b'r', b'y', b':', rest @ ..] => Field::Retry(rest),
        [b'r', b'e', b't', b'r', b'y'] => Field::Retry(&[]),
        _ => Field::Other,
    }
}
