// How programs print events, and the sinks that they print from.

#![tactic(auto, using(crate::proofs::Clipping::clipping_laws))]

mod end;
mod page;
mod tally;
mod transcript;

pub use end::end_lines;
pub use page::Transcript;
use sink::Sink;
pub use tally::Tally;

#[cfg(test)]
mod tests {
    use super::*;
    use events::Event;
    use sink::{Sink, SinkFault};
    use std::test::Fail;

    fn keep(transcript: &mut Transcript, data: &[u8]) -> Result<(), SinkFault> {
        transcript.keep(Event {
            id: b"7",
            event_type: b"say",
            data,
        })
    }

    #[test]
    fn writes_lines(rt: HostRuntime) -> Result<(), Fail> {
        let mut transcript = Transcript::new(rt.alloc())?;
        keep(&mut transcript, b"a \"b\"\\\r\n\t\xff~")?;
        assert!(rt;
            transcript.text()
                == b"event \"7\" \"say\" \"a \\\"b\\\"\\\\\\r\\n\\x09\\xff~\"\n".as_slice()
        );
        transcript.clear();
        assert!(rt; transcript.text().is_empty());
        Ok(())
    }

    #[test]
    fn refuses_what_does_not_fit(rt: HostRuntime) -> Result<(), Fail> {
        let mut transcript = Transcript::new(rt.alloc())?;
        let page = [b'x'; 65536];
        for _ in 0..3 {
            keep(&mut transcript, &page)?;
        }
        let before = transcript.text().len();
        assert!(rt; keep(&mut transcript, &page) == Err(SinkFault { number: 29 }));
        assert!(rt; transcript.text().len() == before);
        assert!(rt; keep(&mut transcript, b"short") == Ok(()));
        Ok(())
    }

    #[test]
    fn counts(rt: HostRuntime) -> Result<(), Fail> {
        let mut tally = Tally::new();
        for _ in 0..3 {
            tally.keep(Event {
                id: b"",
                event_type: b"",
                data: b"",
            })?;
        }
        assert!(rt; tally.kept() == 3);
        Ok(())
    }
}
