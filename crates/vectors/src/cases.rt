// The cases, as standard input has them.
use crate::quoted::unquote;
use anyhow::{Context, anyhow};
use decimal::capped;
use std::alloc::Global;
use std::io::{BufRead, BufReader};

// The most often that a text is repeated.
const MOST_REPEATS: u32 = 4_096;

// A stream, and what has to come of it, in the lines that `pedalfeed read` prints.
#[derive(Drop)]
pub(crate) struct Case {
    pub(crate) name: String,
    pub(crate) stream: Vec<u8>,
    pub(crate) expected: Vec<u8>,
}

impl Case {
    fn new(heap: Global, name: &str) -> anyhow::Result<Case> {
        Ok(Case {
            name: String::from_str(heap, name)?,
            stream: Vec::new(heap),
            expected: Vec::new(heap),
        })
    }

    // Takes a line of the case: a part of its stream, or a line that is expected.
    fn take_line(&mut self, line: &str) -> anyhow::Result<()> {
        if let Some(text) = line.strip_prefix("stream ") {
            return unquote(text.as_bytes(), &mut self.stream);
        }
        if let Some(repeated) = line.strip_prefix("repeat ") {
            return self.take_repeated(repeated);
        }
        self.expected.extend_from_slice(line.as_bytes())?;
        self.expected.push(b'\n')?;
        Ok(())
    }

    // Takes a number and the text that stands in the stream so often.
    fn take_repeated(&mut self, repeated: &str) -> anyhow::Result<()> {
        let (number, text) = repeated.split_once(' ').context("no text to repeat")?;
        let times = capped(number.as_bytes(), MOST_REPEATS).context("no number of times")?;
        for _ in 0..times {
            unquote(text.as_bytes(), &mut self.stream)?;
        }
        Ok(())
    }
}

// All cases of standard input.
pub(crate) fn read_cases(rt: &HostRuntime) -> anyhow::Result<Vec<Case>> {
    let mut cases = Vec::new(rt.alloc());
    let lines = BufReader::new(rt.alloc(), rt.stdin())?.lines(rt.alloc());
    for (number, line) in (1u64..).zip(lines) {
        let line = line?;
        if let Err(why) = take_line(rt.alloc(), &mut cases, line.as_str()) {
            return Err(anyhow!(format!(in rt.alloc(); "line {number}: {why}")?));
        }
    }
    Ok(cases)
}

// Takes a line: blank ones and those that begin with `#` mean nothing, one that begins with `case` begins a case.
pub(crate) fn take_line(heap: Global, cases: &mut Vec<Case>, line: &str) -> anyhow::Result<()> {
    if line.is_empty() || line.starts_with("#") {
        return Ok(());
    }
    if let Some(name) = line.strip_prefix("case ") {
        cases.push(Case::new(heap, name)?)?;
        return Ok(());
    }
    let case = cases.last_mut().context("a line before the first case")?;
    case.take_line(line)
}
