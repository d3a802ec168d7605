// A journal on standard input.
use crate::input::fill;
use crate::output::Output;
use events::Event;
use journal::{JournalReader, Stored};
use notation::Transcript;
use sink::Sink;
use std::alloc::{AllocError, Global};

// One byte over the longest journal, so that a longer one shows.
const MEMORY: usize = 65_537;

// Prints the events of the journal on standard input, and then its end or why it cannot be read on.
pub(crate) fn tell_journal(rt: &HostRuntime) -> anyhow::Result<()> {
    let mut memory = vec![in rt.alloc(); 0u8; MEMORY]?;
    let filled = fill(rt, &mut memory)?;
    match JournalReader::new(&memory[..filled]) {
        Ok(mut reader) => tell_events(rt, &mut reader),
        Err(refusal) => {
            println!(rt; "refused {}", refusal.number())?;
            Ok(())
        }
    }
}

#[tactic(auto, using(crate::proofs::Whole::less_is_left))]
fn tell_events(rt: &HostRuntime, reader: &mut JournalReader<'_>) -> anyhow::Result<()> {
    let mut transcript = Transcript::new(rt.alloc())?;
    loop {
        match reader.next(b"message") {
            Ok(Some(stored)) => tell_event(rt, stored, &mut transcript)?,
            Ok(None) => {
                println!(rt; "end")?;
                return Ok(());
            }
            Err(refusal) => {
                println!(rt; "refused {} at {}", refusal.number(), reader.place())?;
                return Ok(());
            }
        }
    }
}

fn tell_event(
    rt: &HostRuntime,
    stored: Stored<'_>,
    transcript: &mut Transcript,
) -> anyhow::Result<()> {
    let data = data_of(rt.alloc(), stored)?;
    let _ = transcript.keep(Event {
        id: stored.id,
        event_type: stored.event_type,
        data: &data,
    });
    transcript.show(rt)?;
    Ok(())
}

// The data of a stored event, its pieces joined.
fn data_of(heap: Global, stored: Stored<'_>) -> Result<Vec<u8>, AllocError> {
    let mut data = Vec::new(heap);
    for piece in stored.pieces() {
        data.extend_from_slice(piece)?;
    }
    Ok(data)
}
