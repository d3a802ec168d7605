// Bytes in fixed memory: a buffer that holds at most N of them.

#![tactic(auto)]

ghost use Rattle.std.specs.Prelude.{◌≡◌, ◌+◌, ◌≤◌, [], ◌∷◌, ◌++◌, length, take, drop, is_ok, if◌then◌else◌, nat_le, nat_lt};
ghost use Rattle.buffer.specs.Bytes.{bytes_of};

mod store;

pub use store::Buffer;
use store::Store;

// Refused for want of room.
#[derive(Clone, Copy, Debug, PartialEq)]
pub struct Full;

impl<const N: usize> Store<N> {
    // Stores bytes from a place on.
    fn put(&mut self, at: usize, bytes: &[u8])
        requires { at + length bytes.now ≤ N }
        ensures { self.new.bytes ≡ take at self.old.bytes ++ (bytes.now ++ drop (at + length bytes.now) self.old.bytes) }
    {
        let all = &mut self.bytes[..];
        all[at..at + bytes.len()].copy_from_slice(bytes);
    }
}

impl<const N: usize> Buffer<N> {
    pub fn new() -> Buffer<N>
        ensures { bytes_of result ≡ [] }
    {
        Buffer {
            store: Store { bytes: [0; N] },
            fill: 0,
        }
    }

    pub fn len(&self) -> usize
        ensures { result ≡ length (bytes_of self.now) }
    {
        self.fill
    }

    pub fn as_slice(&self) -> &[u8]
        ensures { result.now ≡ bytes_of self.now }
    {
        &self.store.bytes[..self.fill]
    }

    pub fn clear(&mut self)
        ensures { bytes_of self.new ≡ [] }
    {
        self.fill = 0;
    }

    // One byte more, unless N are there.
    pub fn push(&mut self, byte: u8) -> Result<(), Full>
        ensures bytes { bytes_of self.new ≡ (if is_ok result then bytes_of self.old ++ byte ∷ [] else bytes_of self.old) }
        ensures test { is_ok result ≡ nat_lt (length (bytes_of self.old)) N }
    {
        if self.fill >= N {
            return Err(Full);
        }
        self.store.put(self.fill, &[byte]);
        self.fill += 1;
        Ok(())
    }

    // All of `bytes` more, or none where they do not fit.
    pub fn append(&mut self, bytes: &[u8]) -> Result<(), Full>
        ensures bytes { bytes_of self.new ≡ (if is_ok result then bytes_of self.old ++ bytes.now else bytes_of self.old) }
        ensures test { is_ok result ≡ nat_le (length (bytes_of self.old) + length bytes.now) N }
    {
        if bytes.len() > N - self.fill {
            return Err(Full);
        }
        self.store.put(self.fill, bytes);
        self.fill += bytes.len();
        Ok(())
    }

    // `bytes` in place of what was there, or no change where they do not fit.
    pub fn set(&mut self, bytes: &[u8]) -> Result<(), Full>
        ensures bytes { bytes_of self.new ≡ (if is_ok result then bytes.now else bytes_of self.old) }
        ensures test { is_ok result ≡ nat_le (length bytes.now) N }
    {
        if bytes.len() > N {
            return Err(Full);
        }
        self.clear();
        self.append(bytes)
    }
}
