// The chain of effects: a sink whose codes the events edit.
ghost use Rattle.std.specs.Prelude.{◌≡◌, ℕ, ◌+◌, ◌-◌, ◌<◌, ◌≤◌, List, [], length, take, if◌then◌else◌, nat_eq, slice_index};
ghost use Rattle.std.specs.List.{insert as inserted, remove as removed};
ghost use Rattle.sink.specs.Answer.{answer};
ghost use Rattle.sink.specs.Chain.{insert, remove, edited, refused, chain_after, chain_refusal};
ghost use Rattle.sink.specs.Codes.{codes_of};

use crate::edit::{Edit, read};
use crate::fault::SinkFault;
use crate::row::Chain;
use crate::traits::Sink;
use events::Event;

// The number that an insert into a full chain is refused with.
const CHAIN_FULL: u32 = 28;

// The greatest effect code.
const LAST_CODE: usize = 63;

// Puts `code` at `place` among the first `count`, and moves the later ones up.
fn insert_at(places: &mut [u8], count: usize, place: usize, code: u8)
    requires place { place ≤ count }
    requires room { count < length places.old }
    ensures { take (count + 1) places.new ≡ inserted (take count places.old) place code }
{
    let part = &mut places[place..count + 1];
    part.rotate_right(1);
    part[0] = code;
}

// Takes the one at `place` out of the first `count`, and moves the later ones down.
fn remove_at(places: &mut [u8], count: usize, place: usize)
    requires place { place < count }
    requires within { count ≤ length places.old }
    ensures { take (count - 1) places.new ≡ removed (take count places.old) place }
{
    let part = &mut places[place..count];
    part.rotate_left(1);
}

impl Chain {
    // A chain without codes.
    pub fn new() -> Chain
        ensures { codes_of result ≡ [] }
    {
        Chain {
            places: [0; 8],
            count: 0,
        }
    }

    // The codes, from the first place on.
    pub fn codes(&self) -> &[u8]
        ensures codes { result.now ≡ codes_of self.now }
        ensures few { length result.now ≤ 8 }
        ensures lawful { (k : ℕ) → k < length result.now → slice_index result.now k ≤ 63 }
    {
        &self.places[..self.count]
    }

    // Inserts a code, passes what is no lawful insert, and refuses one more than 8.
    fn insert(&mut self, place: usize, code: usize) -> Result<(), SinkFault>
        ensures answer { result ≡ answer (refused (codes_of self.old) (insert place code)) }
        ensures codes { codes_of self.new ≡ (if nat_eq (refused (codes_of self.old) (insert place code)) 0 then edited (codes_of self.old) (insert place code) else codes_of self.old) }
    {
        if place > self.count || code > LAST_CODE {
            return Ok(());
        }
        if self.count >= 8 {
            return Err(SinkFault { number: CHAIN_FULL });
        }
        insert_at(&mut self.places[..], self.count, place, code as u8);
        self.count += 1;
        Ok(())
    }

    // Removes the code at a place, where there is one.
    fn remove(&mut self, place: usize)
        ensures { codes_of self.new ≡ edited (codes_of self.old) (remove place) }
    {
        if place < self.count {
            remove_at(&mut self.places[..], self.count, place);
            self.count -= 1;
        }
    }
}

impl Sink for Chain {
    ghost State = { List ℕ };

    ghost fresh = { λ row. row ≡ [] };

    ghost state = { codes_of };

    ghost refusal = { chain_refusal };

    ghost after = { chain_after };

    fn keep(&mut self, event: Event<'_>) -> Result<(), SinkFault> {
        match read(event) {
            Some(Edit::Insert { place, code }) => self.insert(place, code),
            Some(Edit::Remove { place }) => {
                self.remove(place);
                Ok(())
            }
            None => Ok(()),
        }
    }
}
