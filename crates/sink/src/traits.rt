ghost use Rattle.std.specs.Prelude.{◌≡◌, ℕ, if◌then◌else◌, nat_eq};
ghost use Rattle.events.specs.Event.{Event as Told, event_of};
ghost use Rattle.sink.specs.Answer.{answer};

use crate::fault::SinkFault;
use events::Event;

// Takes events, one after another. `state` is what it stands at, and `fresh` says of a state that a new one stands so; for a
// state and an event `refusal` is 0 or the number it is refused with, and `after` the state that keeping it leads to. The two are no record:
// a sink gives each by itself, and what is said of sinks one above another takes the pair.
pub trait Sink {
    ghost State: { Type 0 };

    ghost fresh: { State → Type 0 };

    ghost state: { Self → State };

    ghost refusal: { State → Told → ℕ };

    ghost after: { State → Told → State };

    // Keeps the event, or refuses it and stays as it is.
    fn keep(&mut self, event: Event<'_>) -> Result<(), SinkFault>
        ensures answer { result ≡ answer (refusal (state self.old) (event_of event.entry)) }
        ensures state { state self.new ≡ (if nat_eq (refusal (state self.old) (event_of event.entry)) 0 then after (state self.old) (event_of event.entry) else state self.old) };
}
