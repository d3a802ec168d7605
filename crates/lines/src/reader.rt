// The reader of a stream.
use crate::fault::Fault;
use crate::text::Lines;
use decoder::Decoder;

// Decoder, lines and fields, the byte of the stream that comes next, and the fault at which reading has stopped.
#[derive(Clone, Copy)]
pub struct Reader {
    pub(crate) decoder: Decoder,
    pub(crate) lines: Lines,
    pub(crate) byte: u32,
    pub(crate) fault: Option<Fault>,
}

// What a piece of a stream came to: the events kept, and the fault at which reading has stopped.
#[derive(Clone, Copy, Debug, PartialEq)]
pub struct Progress {
    pub kept: usize,
    pub fault: Option<Fault>,
}
