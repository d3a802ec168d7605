// The memory of a transcript.
ghost use Rattle.std.specs.Prelude.{◌≤◌, vec_capacity};

// A text of at most 262144 bytes, in memory that is taken once.
#[derive(Drop)]
pub struct Transcript {
    pub(crate) text: Vec<u8>,
    ghost reserved: { 262145 ≤ vec_capacity text },
}
