// pedalfeed: reads a recorded event stream or a journal, and tells what events are in it; writes a stream from events.

#![tactic(auto)]

mod command;
mod input;
mod journals;
mod output;
mod write;

use crate::command::{Command, UsageError, asked, usage};
use crate::input::read_input;
use crate::journals::tell_journal;
use crate::output::tell_end;
use crate::write::write;
use lines::Reader;
use notation::{Tally, Transcript};
use std::env;
use std::process::ExitCode;

// An error that is told in words of our own ends it with status 1; a failed read or write is returned, and the runtime tells of it.
fn main(rt: HostRuntime) -> anyhow::Result<ExitCode> {
    let words: Vec<String> = env::args(&rt)?.collect(rt.alloc())?;
    match asked(&words) {
        Ok(command) => run(&rt, command),
        Err(error) => refuse(&rt, error),
    }
}

fn run(rt: &HostRuntime, command: Command) -> anyhow::Result<ExitCode> {
    match command {
        Command::Help => rt.print(usage())?,
        Command::Read(piece) => read(rt, piece)?,
        Command::Count(piece) => count(rt, piece)?,
        Command::Journal => tell_journal(rt)?,
        Command::Write(numbers, end) => return write(rt, numbers, end),
    }
    Ok(ExitCode::SUCCESS)
}

// Tells why the words are no command, and, unless only a number is wrong, how to use the program.
fn refuse(rt: &HostRuntime, error: UsageError) -> anyhow::Result<ExitCode> {
    eprintln!(rt; "error: {error}")?;
    if error != UsageError::BadPiece {
        rt.stderr().print(usage())?;
    }
    Ok(ExitCode::FAILURE)
}

// Prints each event, and how the stream ended.
fn read(rt: &HostRuntime, piece: Option<usize>) -> anyhow::Result<()> {
    let mut reader = Reader::new();
    let mut transcript = Transcript::new(rt.alloc())?;
    read_input(rt, piece, &mut reader, &mut transcript)?;
    tell_end(rt, &reader)
}

// Prints how many events there are, and how the stream ended.
fn count(rt: &HostRuntime, piece: Option<usize>) -> anyhow::Result<()> {
    let mut reader = Reader::new();
    let mut tally = Tally::new();
    read_input(rt, piece, &mut reader, &mut tally)?;
    println!(rt; "events {}", tally.kept())?;
    tell_end(rt, &reader)
}
