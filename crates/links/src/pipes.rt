ghost use Rattle.std.specs.Prelude.{◌≡◌, ◌≤◌, true, [], length, Ok, Err, MatchResult};
ghost use Rattle.queue.specs.Items.{items, capacity_of};
ghost use Rattle.links.specs.Pipes.{sized, pipe_waiting, pipe_offer, pipe_least, pipe_roomy, pipe_serves, pipe_enough};

use crate::traits::Link;
use events::{Refusal, check_memory};
use queue::Queue;

// Bytes that wait in lent memory. Its room is what the memory has left.
#[derive(Drop)]
pub struct Pipe<'a> {
    bytes: Queue<'a, u8>,
}

impl<'a> Pipe<'a> {
    // An empty pipe in memory of 16 to 65,536 bytes.
    pub fn new(mem: &'a mut [u8]) -> Result<Pipe<'a>, Refusal>
        ensures { MatchResult result (λ p. (sized (length mem.old) ≡ Ok tt) × (pipe_waiting p ≡ []) × (pipe_least p ≡ length mem.old) × (16 ≤ pipe_least p) × ((pipe_offer p).room ≡ length mem.old) × (pipe_serves p ≡ true)) (λ x. sized (length mem.old) ≡ Err x) }
    {
        check_memory(mem.len(), 16, 65_536)?;
        let bytes = Queue::new(mem);
        Ok(Pipe { bytes })
    }
}

impl<'a> Link for Pipe<'a> {
    ghost waiting = { pipe_waiting };

    ghost offer = { pipe_offer };

    ghost least = { pipe_least };

    ghost roomy = { pipe_roomy };

    ghost serves = { pipe_serves };

    ghost enough = { pipe_enough };

    fn serves(&self) -> bool {
        self.bytes.capacity() >= 16
    }

    fn room(&self) -> usize {
        self.bytes.room()
    }

    fn len(&self) -> usize {
        self.bytes.len()
    }

    fn clear(&mut self) {
        self.bytes.clear();
    }

    fn put(&mut self, bytes: &[u8]) -> usize {
        self.bytes.append(bytes)
    }

    fn take(&mut self, out: &mut [u8]) -> usize {
        self.bytes.take_into(out)
    }
}
