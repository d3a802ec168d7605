// The smallest sink: it keeps nothing and accepts everything.
ghost use Rattle.std.specs.Prelude.{◌≡◌, ℕ};

use crate::fault::SinkFault;
use crate::traits::Sink;
use events::Event;

#[derive(Drop)]
pub struct Nowhere;

impl Sink for Nowhere {
    ghost State = { ℕ };

    ghost fresh = { λ n. n ≡ 0 };

    ghost state = { λ _. 0 };

    ghost refusal = { λ _ _. 0 };

    ghost after = { λ x _. x };

    fn keep(&mut self, _event: Event<'_>) -> Result<(), SinkFault> {
        Ok(())
    }
}
