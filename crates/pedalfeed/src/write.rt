// Events, a line for each on standard input, written as a stream.
use crate::command::Numbers;
use authoring::write_lines;
use events::LineEnd;
use numbering::{Bank, Decimal, Numbering};
use std::io::{Read, Write};
use std::process::ExitCode;

// Writes the events of standard input to standard output.
pub(crate) fn write(rt: &HostRuntime, numbers: Numbers, end: LineEnd) -> anyhow::Result<ExitCode> {
    let mut text = Vec::new(rt.alloc());
    rt.stdin().read_to_end(&mut text)?;
    // no trait object: the constants of a numbering belong to its type
    match numbers {
        Numbers::Decimal => write_all(rt, &Decimal, end, &text),
        Numbers::Bank => write_all(rt, &Bank, end, &text),
    }
}

// Writes what there is before a line that stops it, and then tells of that line.
fn write_all<N: Numbering>(
    rt: &HostRuntime,
    numbering: &N,
    end: LineEnd,
    text: &[u8],
) -> anyhow::Result<ExitCode> {
    let mut stream = Vec::new(rt.alloc());
    let stop = write_lines(rt.alloc(), numbering, end, text, &mut stream)?;
    rt.stdout().write_all(&stream)?;
    // `readback` ends so too: no library of ours prints, and one that only did this would be no plainer.
    match stop {
        Some(stop) => {
            eprintln!(rt; "{stop}")?;
            Ok(ExitCode::FAILURE)
        }
        None => Ok(ExitCode::SUCCESS),
    }
}
