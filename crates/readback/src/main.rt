// readback: writes the events on standard input as a stream in memory, and prints what is read of that.

#![tactic(auto)]

use authoring::write_lines;
use events::LineEnd;
use lines::Reader;
use notation::{Transcript, end_lines};
use numbering::Bank;
use reading::read_on;
use std::io::{Read, Write};
use std::process::ExitCode;

// The longest piece that is handed on, so that what a piece prints stays short.
const PIECE: usize = 4_096;

fn main(rt: HostRuntime) -> anyhow::Result<ExitCode> {
    let mut text = Vec::new(rt.alloc());
    rt.stdin().read_to_end(&mut text)?;
    let mut stream = Vec::new(rt.alloc());
    let stop = write_lines(rt.alloc(), &Bank, LineEnd::CrLf, &text, &mut stream)?;
    tell_stream(&rt, &stream)?;
    // `pedalfeed write` ends so too: no library of ours prints, and one that only did this would be no plainer.
    match stop {
        Some(stop) => {
            eprintln!(rt; "{stop}")?;
            Ok(ExitCode::FAILURE)
        }
        None => Ok(ExitCode::SUCCESS),
    }
}

// Prints each event of a stream, and how it ended.
fn tell_stream(rt: &HostRuntime, stream: &[u8]) -> anyhow::Result<()> {
    let mut reader = Reader::new();
    let mut transcript = Transcript::new(rt.alloc())?;
    for piece in stream.chunks(PIECE) {
        let _ = read_on(&mut reader, piece, &mut transcript);
        rt.stdout().write_all(transcript.text())?;
        transcript.clear();
    }
    let _ = transcript.note(b"last", reader.last_id());
    rt.stdout().write_all(transcript.text())?;
    rt.print(end_lines(rt.alloc(), &reader)?)?;
    Ok(())
}
