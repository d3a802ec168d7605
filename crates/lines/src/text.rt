// The text of a stream as far as it is read.
use buffer::Buffer;
use fields::Fields;

// The line buffer: a line being built holds at most 1,024 bytes, by the buffer's invariant.
pub(crate) type LineBuffer = Buffer<1024>;

// The line that is being built, its number from 1, and the block.
#[derive(Clone, Copy)]
pub struct Lines {
    pub(crate) line: LineBuffer,
    pub(crate) after_cr: bool,
    pub(crate) number: u32,
    pub(crate) fields: Fields,
}
