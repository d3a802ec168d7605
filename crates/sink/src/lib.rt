// Where finished events go: what a sink is, and the chain of effects.

#![tactic(auto, using(crate::proofs::Asking::sink_laws))]

mod chain;
mod edit;
mod fault;
#[cfg(test)]
mod nowhere;
mod row;
mod traits;

pub use fault::SinkFault;
pub use row::Chain;
pub use traits::Sink;

#[cfg(test)]
mod tests {
    use super::*;
    use crate::nowhere::Nowhere;
    use events::Event;
    use std::test::Fail;

    fn keep<'a>(chain: &mut Chain, event_type: &'a [u8], data: &'a [u8]) -> Result<(), SinkFault> {
        chain.keep(Event {
            id: b"",
            event_type,
            data,
        })
    }

    #[test]
    fn edits_the_row(rt: HostRuntime) -> Result<(), Fail> {
        let mut chain = Chain::new();
        keep(&mut chain, b"insert", b"0 17")?;
        keep(&mut chain, b"insert", b"0 63")?;
        keep(&mut chain, b"insert", b"1 5")?;
        assert!(rt; chain.codes() == [63, 5, 17].as_slice());
        keep(&mut chain, b"remove", b"1")?;
        assert!(rt; chain.codes() == [63, 17].as_slice());
        Ok(())
    }

    #[test]
    fn passes_what_is_no_edit(rt: HostRuntime) -> Result<(), Fail> {
        let mut chain = Chain::new();
        keep(&mut chain, b"insert", b"1 5")?;
        keep(&mut chain, b"insert", b"0 64")?;
        keep(&mut chain, b"insert", b"00 5")?;
        keep(&mut chain, b"insert", b"0  5")?;
        keep(&mut chain, b"insert", b"99999999999999999999 1")?;
        keep(&mut chain, b"remove", b"0")?;
        keep(&mut chain, b"note", b"0 5")?;
        assert!(rt; chain.codes().is_empty());
        Ok(())
    }

    #[test]
    fn refuses_a_ninth(rt: HostRuntime) -> Result<(), Fail> {
        let mut chain = Chain::new();
        for _ in 0..8 {
            keep(&mut chain, b"insert", b"0 1")?;
        }
        assert!(rt; keep(&mut chain, b"insert", b"8 1") == Err(SinkFault { number: 28 }));
        assert!(rt; keep(&mut chain, b"insert", b"9 1") == Ok(()));
        assert!(rt; chain.codes().len() == 8);
        Ok(())
    }

    #[test]
    fn nowhere_accepts(rt: HostRuntime) {
        let event = Event {
            id: b"",
            event_type: b"note",
            data: b"",
        };
        assert_eq!(rt; Nowhere.keep(event), Ok(()));
    }
}
