// From the bytes of a stream to lines, and with fields and sink to events: the reader of a stream.

#![tactic(auto)]

mod causes;
mod fault;
mod print;
mod reader;
mod reads;
mod text;
mod turns;

pub use fault::{Fault, Layer, LineFault};
pub use reader::{Progress, Reader};

#[cfg(test)]
mod tests {
    use super::*;
    use sink::Chain;
    use std::process::Abort;

    // Reads a stream in pieces, and answers how many events were kept and what stopped it.
    fn read(pieces: &[&[u8]]) -> Progress {
        let mut reader = Reader::new();
        let mut chain = Chain::new();
        let mut kept: usize = 0;
        for piece in pieces {
            kept = kept.saturating_add(reader.read(piece, &mut chain).kept);
        }
        Progress {
            kept,
            fault: reader.fault(),
        }
    }

    // The stream is read to its end, and so many events are kept.
    fn keeps(rt: &impl Abort, pieces: &[&[u8]], kept: usize) {
        assert!(rt; read(pieces) == Progress { kept, fault: None });
    }

    // The fault is of that layer, and has that number, line and byte.
    fn stopped(rt: &impl Abort, fault: Option<Fault>, layer: Layer, numbers: [u32; 3]) {
        let met = fault.map(|f| (f.layer(), [f.number(), f.line, f.byte]));
        assert!(rt; met == Some((layer, numbers)));
    }

    #[test]
    fn data_alone(rt: HostRuntime) {
        keeps(&rt, &[b"\n"], 0);
        keeps(&rt, &[b"data\n\n"], 1);
        keeps(&rt, &[b"data\ndata\n\n"], 1);
    }

    #[test]
    fn cut_between_cr_and_lf(rt: HostRuntime) {
        keeps(&rt, &[b"data\r", b"\ndata\r", b"\n\r", b"\n"], 1);
    }

    #[test]
    fn long_line(rt: HostRuntime) {
        let line = [b':'; 1025];
        keeps(&rt, &[&line[..1024], b"\n"], 0);
        stopped(&rt, read(&[&line[..]]).fault, Layer::Line, [8, 1, 1024]);
    }

    #[test]
    fn long_values(rt: HostRuntime) {
        let value = [b'x'; 513];
        keeps(&rt, &[b"id:", &value[..32], b"\n"], 0);
        let long_id = read(&[b"id:", &value[..33], b"\n"]);
        stopped(&rt, long_id.fault, Layer::Field, [9, 1, 36]);
        keeps(&rt, &[b"data:", &value[..512], b"\n\n"], 1);
        let long_data = read(&[b"\ndata:", &value[..], b"\n\n"]);
        stopped(&rt, long_data.fault, Layer::Field, [11, 2, 519]);
    }

    #[test]
    fn refused_by_the_sink(rt: HostRuntime) {
        let mut reader = Reader::new();
        let mut chain = Chain::new();
        for _ in 0..8 {
            let _ = reader.read(b"id:8\nevent:insert\ndata:0 1\n\n", &mut chain);
        }
        let ninth = reader.read(b"id:9\nevent:insert\ndata:0 1\n\n", &mut chain);
        stopped(&rt, ninth.fault, Layer::Sink, [28, 36, 251]);
        assert!(rt; reader.last_id() == b"8".as_slice());
        let again = reader.read(b"data\n\n", &mut chain);
        assert!(rt; again.kept == 0);
        stopped(&rt, again.fault, Layer::Sink, [28, 36, 251]);
    }
}
