// What comes of a case.
use crate::cases::Case;
use lines::Reader;
use notation::{Transcript, end_lines};
use std::alloc::{AllocError, Global};

// The lengths of the pieces that a stream is cut into.
pub(crate) const PIECES: [usize; 4] = [1, 2, 3, 7];

// Whether a fresh reader makes of the stream, in pieces of `size` bytes, what is expected.
pub(crate) fn meets(heap: Global, case: &Case, size: usize) -> Result<bool, AllocError> {
    let mut reader = Reader::new();
    let mut transcript = Transcript::new(heap)?;
    for piece in case.stream.chunks(size.max(1)) {
        let _ = reader.read(piece, &mut transcript);
    }
    let _ = transcript.note(b"last", reader.last_id());
    let end = end_lines(heap, &reader)?;
    let rest = case.expected.strip_prefix(transcript.text());
    Ok(rest.is_some_and(|rest| rest == end.as_bytes()))
}
