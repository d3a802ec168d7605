// Bytes on their way: what a link is, a pipe over lent memory and a mailbox.

#![tactic(auto, using(crate::proofs::Held::link_laws))]

mod mailboxes;
mod pipes;
mod traits;

pub use mailboxes::Mailbox;
pub use pipes::Pipe;
pub use traits::Link;

#[cfg(test)]
mod tests {
    use super::*;
    use std::test::Fail;

    #[test]
    fn pipe_hands_over(rt: HostRuntime) -> Result<(), Fail> {
        let mut mem = [0u8; 16];
        let mut pipe = Pipe::new(&mut mem)?;
        let mut out = [b'.'; 4];
        assert_eq!(rt; pipe.put(b"id"), 2);
        assert_eq!(rt; pipe.take(&mut out), 2);
        assert!(rt; out == *b"id..");
        Ok(())
    }

    #[test]
    fn pipe_serves(rt: HostRuntime) -> Result<(), Fail> {
        let mut mem = [0u8; 16];
        let pipe = Pipe::new(&mut mem)?;
        assert!(rt; pipe.serves());
        Ok(())
    }

    #[test]
    fn mailbox_has_no_room_while_partly_taken(rt: HostRuntime) {
        let mut mailbox = Mailbox::new();
        let mut out = [b'.'; 2];
        assert_eq!(rt; mailbox.put(b"abc"), 3);
        assert_eq!(rt; mailbox.take(&mut out), 2);
        assert_eq!(rt; mailbox.room(), 0);
    }
}
