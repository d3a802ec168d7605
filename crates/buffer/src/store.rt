// A buffer and the memory that its bytes lie in.
ghost use Rattle.std.specs.Prelude.{◌≡◌, ◌≤◌, length};

// The memory: N bytes, written only by its storing call.
#[derive(Clone, Copy)]
pub(crate) struct Store<const N: usize> {
    pub(crate) bytes: [u8; N],
    ghost full: { length bytes ≡ N },
}

// At most N bytes, in the front of the memory. An array with a length beside it, and no `Vec`, since there is no heap where it serves, and
// it is copied with what it lies in.
#[derive(Clone, Copy)]
pub struct Buffer<const N: usize> {
    pub(crate) store: Store<N>,
    pub(crate) fill: usize,
    ghost within: { fill ≤ N },
}
