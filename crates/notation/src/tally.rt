// A sink that counts.
ghost use Rattle.std.specs.Prelude.{◌≡◌, ℕ};
ghost use Rattle.notation.specs.Kept.{kept_of, tally_after};

use events::Event;
use sink::{Sink, SinkFault};

// How many events were kept; it stays at its greatest number.
#[derive(Clone, Copy)]
pub struct Tally {
    kept: u64,
}

impl Tally {
    // A tally of none.
    pub fn new() -> Tally
        ensures { kept_of result ≡ 0 }
    {
        Tally { kept: 0 }
    }

    // How many events were kept.
    pub fn kept(&self) -> u64
        ensures { result ≡ kept_of self.now }
    {
        self.kept
    }
}

impl Sink for Tally {
    ghost State = { ℕ };

    ghost fresh = { λ n. n ≡ 0 };

    ghost state = { kept_of };

    ghost refusal = { λ _ _. 0 };

    ghost after = { tally_after };

    fn keep(&mut self, _event: Event<'_>) -> Result<(), SinkFault> {
        self.kept = self.kept.saturating_add(1);
        Ok(())
    }
}
