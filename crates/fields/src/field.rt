// What one line says.

// The field of a line, with its value where it counts.
#[derive(Clone, Copy)]
pub enum Field<'a> {
    Comment,
    Data(&'a [u8]),
    Event(&'a [u8]),
    Id(&'a [u8]),
    Retry(&'a [u8]),
    Other,
}
