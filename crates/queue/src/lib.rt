// First in, first out: one ring over lent memory, for every element that is `Copy`.

#![tactic(auto, using(crate::proofs::Rings::ring_laws))]

ghost use Rattle.std.specs.Prelude.{◌≡◌, ◌-◌, ◌<◌, ◌≤◌, min, [], ◌∷◌, ◌++◌, length, take, drop, is_ok, if◌then◌else◌, ◌==◌, nat_lt};
ghost use Rattle.std.specs.List.{slice_get};
ghost use Rattle.queue.specs.Ring.{place_of};
ghost use Rattle.queue.specs.Items.{items, capacity_of};

pub use buffer::Full;

// A queue in lent memory, as long as the memory at most. It has no invariant: its items are there for every `start` and `len`,
// so it can lie in any struct. That no call changes how many items it can hold is a clause of each: the length of lent memory is no
// constant that the type could carry.
#[derive(Drop)]
pub struct Queue<'a, T> {
    mem: &'a mut [T],
    start: usize,
    len: usize,
}

// Where item i lies.
#[tactic(auto, unfolding(crate::specs::Ring::place_of))]
fn place(capacity: usize, start: usize, i: usize) -> usize
    requires { i < capacity }
    ensures within { result < capacity }
    ensures value { result ≡ place_of capacity start i }
{
    let tail = capacity.saturating_sub(start);
    if i < tail { start + i } else { i - tail }
}

impl<'a, T: Copy> Queue<'a, T> {
    // An empty queue; what the memory holds does not matter.
    pub fn new(mem: &'a mut [T]) -> Queue<'a, T>
        ensures items { items result ≡ [] }
        ensures capacity { capacity_of result ≡ length mem.old }
    {
        Queue {
            mem,
            start: 0,
            len: 0,
        }
    }

    // How many items it holds, never more than it can.
    pub fn len(&self) -> usize
        ensures count { result ≡ length (items self.now) }
        ensures within { result ≤ capacity_of self.now }
    {
        self.len.min(self.mem.len())
    }

    // How many items it can hold.
    pub fn capacity(&self) -> usize
        ensures { result ≡ capacity_of self.now }
    {
        self.mem.len()
    }

    // How many more items it can hold.
    pub fn room(&self) -> usize
        ensures { result ≡ capacity_of self.now - length (items self.now) }
    {
        self.capacity() - self.len()
    }

    // Whether it holds nothing.
    pub fn is_empty(&self) -> bool
        ensures { result ≡ (length (items self.now) == 0) }
    {
        self.len() == 0
    }

    // Item i, counted from 0, if there is one.
    pub fn get(&self, i: usize) -> Option<T>
        ensures { result ≡ slice_get (items self.now) i }
    {
        if i >= self.len() {
            return None;
        }
        let mem = &*self.mem;
        let at = place(mem.len(), self.start, i);
        Some(mem[at])
    }

    // Forgets all items.
    pub fn clear(&mut self)
        ensures items { items self.new ≡ [] }
        ensures capacity { capacity_of self.new ≡ capacity_of self.old }
    {
        self.start = 0;
        self.len = 0;
    }

    // One item more at the end, unless it is full.
    pub fn push(&mut self, x: T) -> Result<(), Full>
        ensures test { is_ok result ≡ nat_lt (length (items self.old)) (capacity_of self.old) }
        ensures items { items self.new ≡ (if is_ok result then items self.old ++ x ∷ [] else items self.old) }
        ensures capacity { capacity_of self.new ≡ capacity_of self.old }
    {
        let capacity = self.mem.len();
        if self.len >= capacity {
            return Err(Full);
        }
        let at = place(capacity, self.start, self.len);
        self.mem[at] = x;
        self.len += 1;
        Ok(())
    }

    // Takes the first item out, if there is one.
    pub fn pop_front(&mut self) -> Option<T>
        ensures first { result ≡ slice_get (items self.old) 0 }
        ensures items { items self.new ≡ drop 1 (items self.old) }
        ensures capacity { capacity_of self.new ≡ capacity_of self.old }
    {
        let len = self.len();
        if len == 0 {
            return None;
        }
        let at = place(self.mem.len(), self.start, 0);
        let x = self.mem[at];
        self.start = at + 1;
        self.len = len - 1;
        Some(x)
    }

    // As many of the first of `xs` as there is room for, at the end; says how many.
    pub fn append(&mut self, xs: &[T]) -> usize
        ensures count { result ≡ min (length xs.now) (capacity_of self.old - length (items self.old)) }
        ensures items { items self.new ≡ items self.old ++ take result xs.now }
        ensures capacity { capacity_of self.new ≡ capacity_of self.old }
    {
        let n = xs.len().min(self.room());
        for x in &xs[..n] {
            let _ = self.push(*x);
        }
        n
    }

    // Takes out as many of the first items as `out` has places for, into its front; says how many. What `out` holds behind them stays.
    pub fn take_into(&mut self, out: &mut [T]) -> usize
        ensures count { result ≡ min (length out.old) (length (items self.old)) }
        ensures out { out.new ≡ take result (items self.old) ++ drop result out.old }
        ensures items { items self.new ≡ drop result (items self.old) }
        ensures capacity { capacity_of self.new ≡ capacity_of self.old }
    {
        let taken = out.len().min(self.len());
        for place in &mut out[..taken] {
            if let Some(x) = self.pop_front() {
                *place = x;
            }
        }
        taken
    }
}

#[cfg(test)]
mod tests {
    use super::*;

    #[test]
    fn goes_round(rt: HostRuntime) {
        let mut mem = [9u8; 3];
        let mut q = Queue::new(&mut mem);
        assert_eq!(rt; q.append(b"abcd"), 3);
        assert_eq!(rt; q.push(b'z'), Err(Full));
        assert_eq!(rt; q.pop_front(), Some(b'a'));
        assert_eq!(rt; q.push(b'z'), Ok(()));
        assert_eq!(rt; q.get(2), Some(b'z'));
        let mut out = [7u8; 5];
        assert_eq!(rt; q.take_into(&mut out), 3);
        assert!(rt; out == [b'b', b'c', b'z', 7, 7]);
        assert!(rt; q.is_empty());
    }

    #[test]
    fn holds_nothing_in_no_memory(rt: HostRuntime) {
        let mut mem = [0u32; 0];
        let mut q = Queue::new(&mut mem);
        assert_eq!(rt; q.push(1), Err(Full));
        assert_eq!(rt; q.pop_front(), None);
    }
}
