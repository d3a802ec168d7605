// Standard input, read in large parts and handed on in pieces.
ghost use Rattle.std.specs.Prelude.{◌≤◌, length, IfOk};

use crate::output::Output;
use lines::Reader;
use reading::read_on;
use std::io;
use std::io::Read;

// How much is read at once.
const PART: usize = 65_536;

// The longest piece that is handed on, so that what a piece prints stays short.
const LONGEST_PIECE: usize = 4_096;

// Reads standard input to its end or to the first fault: in pieces of `piece` bytes, of which the last may be shorter, or,
// where none is asked for, as it comes.
pub(crate) fn read_input<S: Output>(
    rt: &HostRuntime,
    piece: Option<usize>,
    reader: &mut Reader,
    sink: &mut S,
) -> anyhow::Result<()> {
    let size = piece.unwrap_or(LONGEST_PIECE).max(1);
    let mut part = vec![in rt.alloc(); 0u8; PART / size * size]?;
    // Input need not end, so the turns are counted: without a count nothing says that the loop ends.
    for _ in 0..u64::MAX {
        let filled = next_part(rt, piece.is_some(), &mut part)?;
        hand_on(rt, &part[..filled], size, reader, sink)?;
        if filled == 0 || reader.fault().is_some() {
            break;
        }
    }
    Ok(())
}

// Hands a part on in pieces, and prints what came of each.
fn hand_on<S: Output>(
    rt: &HostRuntime,
    part: &[u8],
    size: usize,
    reader: &mut Reader,
    sink: &mut S,
) -> io::Result<()> {
    for piece in part.chunks(size.max(1)) {
        let _ = read_on(reader, piece, sink);
        sink.show(rt)?;
    }
    Ok(())
}

// The next part of the input, whole or as it comes, and how long it is: 0 only at the end of the input. The memory stays as long as it
// is, since making it so again for each read would write zeros over all that the last one did not fill.
fn next_part(rt: &HostRuntime, whole: bool, part: &mut [u8]) -> io::Result<usize>
    ensures { IfOk result (λ n. n ≤ length part.new) }
{
    if whole {
        return fill(rt, part);
    }
    let got = rt.stdin().read(part)?;
    Ok(got.min(part.len()))
}

// Fills the memory, and answers with how much: less than all of it only at the end of the input. `read_to_end` begins with small reads,
// and what a packet has beyond these is lost.
pub(crate) fn fill(rt: &HostRuntime, memory: &mut [u8]) -> io::Result<usize>
    ensures { IfOk result (λ n. n ≤ length memory.new) }
{
    let mut filled = 0;
    for _ in 0..u64::MAX {
        let got = rt.stdin().read(&mut memory[filled..])?;
        filled = filled.saturating_add(got).min(memory.len());
        if got == 0 || filled == memory.len() {
            break;
        }
    }
    Ok(filled)
}
