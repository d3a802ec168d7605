// Text as people write it for programs: lines, and texts between quotes.

#![tactic(auto)]

mod cutting;
mod event;
mod items;
mod laws;
mod quoted;
mod texts;

pub use cutting::{Lines, cut_line};
pub use event::{Cause, event_line};
pub use items::{Item, first_item};
pub use laws::what_is_quoted_is_read_back;
pub use quoted::{Unquoted, unquote};
pub use texts::{TwoTexts, next_text, skip_blanks, two_texts};

#[cfg(test)]
mod tests {
    use super::*;
    use std::alloc::{AllocError, Global};
    use std::test::Fail;

    #[test]
    fn reads_an_event(rt: HostRuntime) -> Result<(), Fail> {
        match event_line(rt.alloc(), b" \"in\\x73ert\"\t\"\\\"\\\\\\n\\x00\\xfF\" ")? {
            Ok(_) => Err(Fail::new("not UTF-8, and taken")),
            Err(Cause::Refused(refusal)) => {
                assert_eq!(rt; refusal.number(), 4);
                Ok(())
            }
            Err(Cause::Unreadable) => Err(Fail::new("not read")),
        }?;
        match event_line(rt.alloc(), b"\"in\\x73ert\" \"\\n\"")? {
            Ok(entry) => {
                assert!(rt;
                    entry.event_type() == b"insert".as_slice() && entry.data() == b"\n".as_slice()
                );
                Ok(())
            }
            Err(_) => Err(Fail::new("no event")),
        }
    }

    fn unreadable(heap: Global, line: &[u8]) -> Result<bool, AllocError> {
        Ok(matches!(event_line(heap, line)?, Err(Cause::Unreadable)))
    }

    #[test]
    fn tells_other_forms(rt: HostRuntime) -> Result<(), Fail> {
        assert!(rt; unreadable(rt.alloc(), b"")?);
        assert!(rt; unreadable(rt.alloc(), b"\"a\"")?);
        assert!(rt; unreadable(rt.alloc(), b"\"a\"\"b\"")?);
        assert!(rt; unreadable(rt.alloc(), b"\"a\" \"b\" c")?);
        assert!(rt; unreadable(rt.alloc(), b"\"a\" \"b")?);
        assert!(rt; unreadable(rt.alloc(), b"\"a\" \"\\t\"")?);
        assert!(rt; unreadable(rt.alloc(), b"\"a\" \"\t\"")?);
        Ok(())
    }

    #[test]
    fn cuts_lines(rt: HostRuntime) {
        let (first, rest) = cut_line(b"a\n\nb");
        let (second, rest) = cut_line(rest);
        let (third, rest) = cut_line(rest);
        assert!(rt;
            first == b"a".as_slice()
                && second == b"".as_slice()
                && third == b"b".as_slice()
                && rest == b"".as_slice()
        );
    }

    #[test]
    fn goes_over_lines(rt: HostRuntime) {
        let mut lines = Lines::new(b"a\n\nb\n");
        assert!(rt; lines.next() == Some(b"a".as_slice()));
        assert!(rt; lines.next() == Some(b"".as_slice()));
        assert!(rt; lines.next() == Some(b"b".as_slice()));
        assert!(rt; lines.next() == None);
    }
}
