// How a reading ended.
ghost use Rattle.std.specs.Prelude.{◌≡◌, IfOk, string_bytes};
ghost use Rattle.lines.specs.Code.{fault_said, reader_of};
ghost use Rattle.lines.specs.Reader.{fault_of, retry_of};
ghost use Rattle.notation.specs.End.{retry_line, fault_line, end_lines};

use lines::{Fault, Reader};
use std::alloc::{AllocError, Global};

// The reconnection time in a line, and the fault in another if there is one.
pub fn end_lines(heap: Global, reader: &Reader) -> Result<String, AllocError>
    ensures { IfOk result (λ s. string_bytes s ≡ end_lines (retry_of (reader_of reader.now)) (fault_of (reader_of reader.now))) }
{
    let mut lines = retry_line(heap, reader.retry())?;
    if let Some(fault) = reader.fault() {
        lines.push_str(&fault_line(heap, fault)?)?;
    }
    Ok(lines)
}

fn retry_line(heap: Global, time: u32) -> Result<String, AllocError>
    ensures { IfOk result (λ s. string_bytes s ≡ retry_line time) }
{
    format!(in heap; "retry {time}\n")
}

fn fault_line(heap: Global, fault: Fault) -> Result<String, AllocError>
    ensures { IfOk result (λ s. string_bytes s ≡ fault_line (fault_said fault)) }
{
    format!(in heap; "{fault}\n")
}
