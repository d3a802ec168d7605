ghost use Rattle.std.specs.Prelude.{◌≡◌, []};
ghost use Rattle.links.specs.Mailboxes.{box_waiting, box_offer, box_least, box_roomy, box_serves, box_enough};

use crate::traits::Link;
use buffer::Buffer;

// One letter of at most 256 bytes at a time. There is no room for the next until the last byte of this one is taken.
#[derive(Clone, Copy)]
pub struct Mailbox {
    letter: Buffer<256>,
    taken: usize,
}

impl Mailbox {
    // An empty mailbox.
    pub fn new() -> Mailbox
        ensures { box_waiting result ≡ [] }
    {
        Mailbox {
            letter: Buffer::new(),
            taken: 0,
        }
    }
}

impl Link for Mailbox {
    ghost waiting = { box_waiting };

    ghost offer = { box_offer };

    ghost least = { box_least };

    ghost roomy = { box_roomy };

    ghost serves = { box_serves };

    ghost enough = { box_enough };

    fn serves(&self) -> bool {
        true
    }

    fn room(&self) -> usize {
        if self.len() == 0 { 256 } else { 0 }
    }

    fn len(&self) -> usize {
        self.letter.len().saturating_sub(self.taken)
    }

    fn clear(&mut self) {
        self.letter.clear();
    }

    fn put(&mut self, bytes: &[u8]) -> usize {
        let n = bytes.len().min(self.room());
        if n == 0 {
            return 0;
        }
        let _ = self.letter.set(&bytes[0..n]);
        self.taken = 0;
        n
    }

    fn take(&mut self, out: &mut [u8]) -> usize {
        let letter = self.letter.as_slice();
        let from = self.taken.min(letter.len());
        let n = out.len().min(letter.len() - from);
        out[0..n].copy_from_slice(&letter[from..from + n]);
        self.taken = from + n;
        n
    }
}
