//! Commands on files of a world in memory, and what they come to.
ghost use Rattle.std.specs.Prelude.{◌≡◌, ◌+◌, ◌≤◌, length};

use job_commands::read_live_words;
use job_top::{Status, serial};
use plain_text::{Bytes, NoMemory, Sequence, Text};
use std::alloc::Global;
use world_io::MemoryWorld;

/// Commands on files, and what they come to.
#[derive(Clone, Copy)]
pub struct Case<'a> {
    /// The files that are there before, by name.
    pub files: &'a [(&'a str, &'a [u8])],
    /// The commands, by their words. All but the last one are done.
    pub commands: &'a [&'a [&'a str]],
    /// What the last one comes to.
    pub status: Status,
    /// Names, and the bytes that each has then, where it is there.
    pub left: &'a [(&'a str, Option<&'a [u8]>)],
    /// What the report is, or ends with.
    pub report: &'a [u8],
    pub is_whole_report: bool,
}

/// What fails in a world: a call of reading, or of writing, by its number.
#[derive(Clone, Copy)]
pub enum Fault {
    Nothing,
    Read(u64),
    Write(u64),
}

/// Makes a call fail in a world.
pub fn add_fault(world: &mut MemoryWorld, fault: Fault) -> Result<(), NoMemory>
    ensures { length world.new.files ≡ length world.old.files }
{
    match fault {
        Fault::Nothing => Ok(()),
        Fault::Read(nth) => {
            world.fail_read(nth)?;
            Ok(())
        }
        Fault::Write(nth) => {
            world.fail_write(nth)?;
            Ok(())
        }
    }
}

/// Sets the bytes of a name.
fn add_file(
    alloc: Global,
    world: &mut MemoryWorld,
    name: &str,
    bytes: &[u8],
) -> Result<(), NoMemory>
    ensures { length world.new.files ≡ length world.old.files }
{
    let name = Text::of(alloc, name)?;
    world.add(&name, Bytes::of(alloc, bytes)?)
}

/// Sets the bytes of these names, in turn.
pub fn add_files(
    alloc: Global,
    world: &mut MemoryWorld,
    files: &[(&str, &[u8])],
) -> Result<(), NoMemory>
    ensures { length world.new.files ≡ length world.old.files }
{
    for (name, bytes) in files {
        add_file(alloc, world, name, bytes)?;
    }
    Ok(())
}

fn push_words(alloc: Global, texts: &mut Sequence<Text>, words: &[&str]) -> Result<(), NoMemory> {
    for word in words {
        texts.push(Text::of(alloc, word)?)?;
    }
    Ok(())
}

/// The words as texts.
pub fn texts_of(alloc: Global, words: &[&str]) -> Result<Sequence<Text>, NoMemory> {
    let mut texts = Sequence::new(alloc);
    push_words(alloc, &mut texts, words)?;
    Ok(texts)
}

/// What words come to of a command that waits for nobody.
pub fn give_words(
    alloc: Global,
    world: &mut MemoryWorld,
    words: &[&str],
) -> Result<Status, NoMemory>
    requires { length world.old.files ≤ 1000 }
    ensures { length world.new.files ≤ length world.old.files + 8 }
{
    let texts = texts_of(alloc, words)?;
    let texts = texts.as_slice();
    if read_live_words(texts).is_some() {
        return Ok(Status::BadWords);
    }
    Ok(serial(alloc, texts, world))
}

/// What the last of these commands comes to, or the first one that is not done. There are ten at most.
fn give_all(
    alloc: Global,
    world: &mut MemoryWorld,
    commands: &[&[&str]],
) -> Result<Status, NoMemory>
    requires { length world.old.files ≡ 0 }
{
    let mut status = Status::Done;
    for place in 0..commands.len() {
        if place >= 10 || status != Status::Done {
            return Ok(status);
        }
        status = give_words(alloc, world, commands[place])?;
    }
    Ok(status)
}

/// Whether both names have the same bytes.
pub fn are_same(
    alloc: Global,
    world: &MemoryWorld,
    one: &str,
    other: &str,
) -> Result<bool, NoMemory> {
    let one = Text::of(alloc, one)?;
    let other = Text::of(alloc, other)?;
    Ok(world.bytes(&one) == world.bytes(&other))
}

/// Whether each name has these bytes, or is not there.
fn has_files(
    alloc: Global,
    world: &MemoryWorld,
    files: &[(&str, Option<&[u8]>)],
) -> Result<bool, NoMemory> {
    for (name, bytes) in files {
        let name = Text::of(alloc, name)?;
        if world.bytes(&name) != *bytes {
            return Ok(false);
        }
    }
    Ok(true)
}

/// Whether the report is what the case says.
fn reports(world: &MemoryWorld, case: &Case<'_>) -> bool {
    if case.is_whole_report {
        world.report() == case.report
    } else {
        world.report().ends_with(case.report)
    }
}

/// Whether a case comes to what it says, in a world that has given no numbers.
fn comes_to_in(
    alloc: Global,
    world: &mut MemoryWorld,
    fault: Fault,
    case: &Case<'_>,
) -> Result<bool, NoMemory>
    requires { length world.old.files ≡ 0 }
{
    add_fault(world, fault)?;
    add_files(alloc, world, case.files)?;
    let status = give_all(alloc, world, case.commands)?;
    let left = has_files(alloc, world, case.left)?;
    Ok(status == case.status && left && reports(world, case))
}

/// Whether it does in a world of its own, where this fails.
pub fn comes_to(alloc: Global, fault: Fault, case: &Case<'_>) -> Result<bool, NoMemory> {
    let mut world = MemoryWorld::new(alloc)?;
    comes_to_in(alloc, &mut world, fault, case)
}
