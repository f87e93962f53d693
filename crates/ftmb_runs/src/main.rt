//! The program once more, for its stored runs: sessions of commands, over the files of `data` and those that earlier
//! lines left.
//!
//! The arguments name the sessions. A session is a text. Each of its lines is printed, and below it what it leads to:
//! - `$ ftmb WORDS`: the command, performed as the program performs it; its report, and how the program ends.
//! - `write NAME: LINES`: a file is written; a semicolon stands for the end of a line.
//! - `hex NAME: PARTS`: a file is written of parts, one after the other: hexadecimal digits, or `@` and another file's name.
//! - `text NAME`: the lines of a file, a semicolon after each.
//! - `bytes NAME`: the bytes of a file, in hexadecimal digits, 16 on a line.
//! - `same NAME NAME ..`: whether these files have the same bytes, or the first one that has others.
//!
//! All other lines are for whoever reads the session.
#![tactic(auto)]

use command_line::{Status, StatusText, name_streams, one_file, read_words, run_words};
use plain_text::Text;
use std::alloc::{AllocError, Global};
use std::env::Args;
use std::rt::Files;
use std::sync::Wait;
use std::thread::Threads;
use std::{env, fs, io};
use var_locks::OpenGate;
use world_io::FixedClock;
use world_real::{RealWorld, Silence};
use world_told::Told;

/// What the clock answers in each session, in microseconds.
const TIME: u64 = 100_000_006;

/// The arguments of a program that is called with these words, of which the first is its name.
fn arguments(alloc: Global, words: &str) -> Result<Args, AllocError> {
    let mut arguments = Vec::new(alloc);
    for word in words.split_whitespace() {
        arguments.push(String::from_str(alloc, word)?)?;
    }
    Ok(arguments.into_iter())
}

/// Performs the words over the files of the system.
fn perform_words<R: AllocGlobal + Files + Print + Threads + Wait + Sync>(
    rt: &R,
    words: &[Text],
) -> Status {
    let piped = match name_streams(rt.alloc(), words) {
        Ok(piped) => piped,
        Err(status) => return status,
    };
    let words = piped.words.as_slice();
    if one_file(rt, words, piped.report).is_some() {
        return Status::BadWords;
    }
    let world = Told::of(RealWorld::new(rt.alloc(), rt, Silence));
    let out = Told::of(RealWorld::new(rt.alloc(), rt, Silence));
    run_words(rt, words, world, out, &FixedClock(TIME), &OpenGate).status
}

/// Performs a command, and prints the number and the text of the status that the program ends with.
fn run<R: AllocGlobal + Files + Print + Threads + Wait + Sync>(
    rt: &R,
    words: &str,
) -> io::Result<()> {
    let arguments = arguments(rt.alloc(), words)?;
    let status = match read_words(rt.alloc(), Ok(arguments)) {
        Ok(words) => perform_words(rt, words.as_slice()),
        Err(status) => status,
    };
    let number = status.exit_code();
    println!(rt; "{number}: {}", StatusText(status))
}

/// Writes a file: its name, and after a colon its lines.
fn write<R: AllocGlobal + Files + Print>(rt: &R, file: &str) -> io::Result<()> {
    let Some((name, lines)) = file.split_once(": ") else {
        return println!(rt; "no name");
    };
    let mut bytes = Vec::new(rt.alloc());
    for byte in lines.bytes() {
        bytes.push(if byte == b';' { b'\n' } else { byte })?;
    }
    fs::write(rt, name, bytes)
}

/// The bytes of a part of a file: those of the file whose name stands after `@`, or those that digits stand for.
fn part_of<R: AllocGlobal + Files>(rt: &R, part: &str) -> io::Result<Vec<u8>> {
    match part.strip_prefix('@') {
        Some(name) => fs::read(rt, name),
        None => match hex::decode(rt.alloc(), part) {
            Ok(bytes) => Ok(bytes),
            Err(_) => Err(io::Error::from(io::ErrorKind::InvalidData)),
        },
    }
}

/// Writes a file of parts: its name, and after a colon the parts.
fn write_parts<R: AllocGlobal + Files>(rt: &R, file: &str) -> io::Result<()> {
    let (name, parts) = file.split_once(':').unwrap_or((file, ""));
    let mut bytes = Vec::new(rt.alloc());
    for part in parts.split_whitespace() {
        bytes.extend_from_slice(part_of(rt, part)?.as_slice())?;
    }
    fs::write(rt, name, bytes)
}

/// Prints whether files have the same bytes.
fn compare<R: AllocGlobal + Files + Print>(rt: &R, names: &str) -> io::Result<()> {
    let mut names = names.split_whitespace();
    let first = fs::read(rt, names.next().unwrap_or(""))?;
    for name in names {
        if fs::read(rt, name)? != first {
            return println!(rt; "no: {name}");
        }
    }
    println!(rt; "yes")
}

/// Prints the lines of a file.
fn show_text<R: AllocGlobal + Files + Print>(rt: &R, name: &str) -> io::Result<()> {
    let Ok(text) = fs::read_to_string(rt, name) else {
        return println!(rt; "{name} is not there");
    };
    print!(rt; "{name}:")?;
    for line in text.lines() {
        print!(rt; " {line};")?;
    }
    println!(rt; "")
}

/// Prints the bytes of a file.
fn show_bytes<R: AllocGlobal + Files + Print>(rt: &R, name: &str) -> io::Result<()> {
    let Ok(bytes) = fs::read(rt, name) else {
        return println!(rt; "{name} is not there");
    };
    for row in bytes.chunks(16) {
        println!(rt; "{}", hex::encode(rt.alloc(), row)?)?;
    }
    Ok(())
}

/// Does what a line of a session says.
fn perform<R: AllocGlobal + Files + Print + Threads + Wait + Sync>(
    rt: &R,
    line: &str,
) -> io::Result<()> {
    match line.split_once(' ') {
        Some(("$", words)) => run(rt, words),
        Some(("write", file)) => write(rt, file),
        Some(("hex", file)) => write_parts(rt, file),
        Some(("text", name)) => show_text(rt, name),
        Some(("bytes", name)) => show_bytes(rt, name),
        Some(("same", names)) => compare(rt, names),
        _ => Ok(()),
    }
}

fn main(rt: HostRuntime) -> io::Result<()> {
    for name in env::args(&rt)?.skip(1) {
        let session = fs::read_to_string(&rt, name.as_str())?;
        for line in session.lines() {
            println!(rt; "{line}")?;
            perform(&rt, line)?;
        }
    }
    Ok(())
}
