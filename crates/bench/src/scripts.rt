//! A script of a given number of lines, a few of all forms in turn, is read.
use crate::words::next_number;
use plain_text::{Bytes, NoMemory};
use script_text::read_script;
use std::alloc::Global;
use std::env::Args;

/// The lines of the script, in turn.
const LINES: [&str; 8] = [
    "step 3\n",
    "log 3 1000000\n",
    "step 12 = 271828\n",
    "out 3 500000\n",
    "feed 1\n",
    "late 1 log 2 30\n",
    "cut out 1 2 77\n",
    "auto 7 1\n",
];

/// A script of this number of lines.
fn make_script(alloc: Global, count: u64) -> Result<Bytes, NoMemory> {
    let mut text = Bytes::new(alloc);
    for number in 0..count {
        text.extend(LINES[(number % 8) as usize].as_bytes())?;
    }
    Ok(text)
}

/// Tells how many events are read, where the word says how many lines the script has.
pub fn run<R: AllocGlobal + Print>(rt: &R, words: &mut Args) -> anyhow::Result<()> {
    let count = next_number(words, "how many lines?")?;
    let text = make_script(rt.alloc(), count)?;
    let events = read_script(rt.alloc(), text.as_slice())?;
    println!(rt; "{} events of {} bytes", events.len(), text.len())?;
    Ok(())
}
