// The type of an event that says none.
ghost use Rattle.std.specs.Prelude.{◌≡◌, codes};
ghost use Rattle.std.specs.Str.{bytes_eq};

// Whether it is the type that a reader takes where none is written.
pub fn is_message(event_type: &[u8]) -> bool
    ensures { result ≡ bytes_eq event_type.now (codes "message") }
{
    event_type == b"message".as_slice()
}
