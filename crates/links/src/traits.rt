ghost use Rattle.std.specs.Prelude.{◌≡◌, ℕ, ◌≤◌, min, Bool, true, List, [], ◌++◌, length, take, drop};
ghost use Rattle.links.specs.Offer.{Offer};

// Bytes on their way, first in, first out. `waiting` are those put and not yet taken. What it has to offer at a moment, its room, may go up and
// down as the link likes; only `least`, which no call changes, is sure: that much room there is whenever nothing waits. A link that is made
// has 16 at least, and one that serves too. That no call changes `least` and `serves` is a clause of each, since a law over links cannot
// speak of a call.
pub trait Link {
    ghost waiting: { Self → List ℕ };

    ghost offer: { Self → Offer };

    ghost least: { Self → ℕ };

    ghost roomy: { (l : Self) → waiting l ≡ [] → least l ≤ (offer l).room };

    // Whether it was made with the room that a link has to have. No call changes it, and a feed is made only over a link that serves.
    ghost serves: { Self → Bool };

    ghost enough: { (l : Self) → serves l ≡ true → 16 ≤ least l };

    // Whether it serves.
    fn serves(&self) -> bool
        ensures { result ≡ serves self.now };

    // How many bytes a put would take.
    fn room(&self) -> usize
        ensures { result ≡ (offer self.now).room };

    // How many bytes wait.
    fn len(&self) -> usize
        ensures { result ≡ length (waiting self.now) };

    // Drops what waits.
    fn clear(&mut self)
        ensures waiting { waiting self.new ≡ [] }
        ensures least { least self.new ≡ least self.old }
        ensures serves { serves self.new ≡ serves self.old };

    // As many of the first bytes as there is room for, behind what waits; says how many.
    fn put(&mut self, bytes: &[u8]) -> usize
        ensures count { result ≡ min (length bytes.now) (offer self.old).room }
        ensures waiting { waiting self.new ≡ waiting self.old ++ take result bytes.now }
        ensures least { least self.new ≡ least self.old }
        ensures serves { serves self.new ≡ serves self.old };

    // As many of the first bytes that wait as `out` has places for, into its front; says how many. What `out` holds behind them stays.
    fn take(&mut self, out: &mut [u8]) -> usize
        ensures count { result ≡ min (length out.old) (length (waiting self.old)) }
        ensures out { out.new ≡ take result (waiting self.old) ++ drop result out.old }
        ensures waiting { waiting self.new ≡ drop result (waiting self.old) }
        ensures least { least self.new ≡ least self.old }
        ensures serves { serves self.new ≡ serves self.old };
}
