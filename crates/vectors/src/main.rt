// vectors: runs the cases on standard input over the reader, and tells which are met.

#![tactic(auto)]

mod cases;
mod quoted;
mod trial;

use crate::cases::{Case, read_cases};
use crate::trial::{PIECES, meets};
use anyhow::ensure;

fn main(rt: HostRuntime) -> anyhow::Result<()> {
    run(&rt)
}

fn run(rt: &HostRuntime) -> anyhow::Result<()> {
    let cases = read_cases(rt)?;
    let mut failed = 0u64;
    for case in &cases {
        if !tell(rt, case)? {
            failed = failed.saturating_add(1);
        }
    }
    let all = cases.len();
    println!(rt; "{all} cases, {failed} failed")?;
    ensure!(failed == 0, "a case failed");
    Ok(())
}

// Runs a case, whole and in pieces, and tells whether what is expected came of it.
fn tell(rt: &HostRuntime, case: &Case) -> anyhow::Result<bool> {
    let name = &case.name;
    if !meets(rt.alloc(), case, case.stream.len())? {
        println!(rt; "FAILED {name} (whole)")?;
        return Ok(false);
    }
    for size in PIECES {
        if !meets(rt.alloc(), case, size)? {
            println!(rt; "FAILED {name} (pieces of {size})")?;
            return Ok(false);
        }
    }
    println!(rt; "ok {name}")?;
    Ok(true)
}

#[cfg(test)]
mod tests {
    use crate::cases::take_line;
    use crate::trial::meets;
    use anyhow::anyhow;
    use std::alloc::Global;
    use std::test::Fail;

    // A case with every escape, but for the end of what is expected.
    const CASE: &str = "# a comment

case a
stream \"id: 1\\ndata: \\\"\\\\\\x41\"
repeat 2 \"\\r\\n\"
event \"1\" \"message\" \"\\\"\\\\A\"
last \"1\"
";

    // Whether the case with this line at its end is met, in pieces of two bytes.
    fn met(heap: Global, end: &str) -> anyhow::Result<bool> {
        let mut cases = Vec::new(heap);
        for line in CASE.lines() {
            take_line(heap, &mut cases, line)?;
        }
        take_line(heap, &mut cases, end)?;
        match cases.first() {
            Some(case) => Ok(meets(heap, case, 2)?),
            None => Err(anyhow!("no case")),
        }
    }

    #[test]
    fn tells_what_is_met(rt: HostRuntime) -> Result<(), Fail> {
        assert!(rt; met(rt.alloc(), "retry 3000")?);
        assert!(rt; !met(rt.alloc(), "retry 3001")?);
        assert!(rt; !met(rt.alloc(), "last \"1\"")?);
        assert!(rt; !met(rt.alloc(), "")?);
        Ok(())
    }

    #[test]
    fn refuses_another_form(rt: HostRuntime) {
        assert!(rt; met(rt.alloc(), "stream \"no end").is_err());
        assert!(rt; met(rt.alloc(), "stream \"\\y\"").is_err());
        assert!(rt; met(rt.alloc(), "stream \"\\x4G\"").is_err());
        assert!(rt; met(rt.alloc(), "stream \"a\" b").is_err());
        assert!(rt; met(rt.alloc(), "repeat x \"a\"").is_err());
        assert!(rt; met(rt.alloc(), "repeat 2").is_err());
    }
}
