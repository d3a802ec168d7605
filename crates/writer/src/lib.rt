// What a sender puts on a link: events, comments and reconnection times as bytes.

#![tactic(auto)]

mod lines;
mod window;
mod write;

pub use write::{write_comment, write_event, write_retry};

#[cfg(test)]
mod tests {
    use super::*;
    use events::{Entry, LineEnd};
    use std::test::Fail;

    #[test]
    fn events_whole_and_in_part(rt: HostRuntime) -> Result<(), Fail> {
        let mut out = [b'.'; 40];
        let mut end = [b'.'; 8];
        let event = Entry::new(b"insert", b"0 17").map_err(|_| Fail::new("refused"))?;
        assert_eq!(rt; write_event(LineEnd::CrLf, b"1B", &event, 0, &mut out), 37);
        assert_eq!(rt; write_event(LineEnd::Lf, b"1B", &event, 0, &mut out), 33);
        assert!(rt; &out[0..33] == b"id: 1B\nevent: insert\ndata: 0 17\n\n".as_slice());
        assert_eq!(rt; write_event(LineEnd::Lf, b"1B", &event, 30, &mut end), 3);
        assert!(rt; end == *b"7\n\n.....");
        Ok(())
    }

    #[test]
    fn lines_of_little(rt: HostRuntime) -> Result<(), Fail> {
        let mut out = [b'.'; 16];
        assert_eq!(rt; write_retry(LineEnd::Lf, 5000, 0, &mut out), 12);
        assert!(rt; out == *b"retry: 5000\n....");
        assert_eq!(rt; write_comment(LineEnd::Cr, 0, &mut out), 2);
        assert_eq!(rt; write_comment(LineEnd::Cr, 9, &mut out), 0);
        let event = Entry::new(b"message", b"").map_err(|_| Fail::new("refused"))?;
        assert_eq!(rt; write_event(LineEnd::Lf, b"7", &event, 0, &mut out), 14);
        assert!(rt; out == *b"id: 7\ndata: \n\n..");
        Ok(())
    }
}
