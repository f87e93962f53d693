ghost use Rattle.std.specs.Prelude.{◌≡◌, ◌≤◌, All, IsTrue, IfOk, false};
ghost use Rattle.plain_text.specs.Packets.{IsShort};

use box_program::Program;
use plain_text::{Bytes, MOST_CAPTURED, NoMemory, Packet, Packets, Text, Unit, put_decimal};
use recovery_core::{Finished, Memory, Reply, System, put_line};
use recovery_world::Event;
use script_text::read_script;
use std::alloc::Global;

/// The seed of the system.
const SEED: u64 = 42;

/// Appends a packet of 100 seconds and a fraction.
fn push_packet(
    alloc: Global,
    packets: &mut Packets,
    fraction: u32,
    frame: &[u8],
) -> Result<(), NoMemory> {
    let bytes = Bytes::of(alloc, frame)?;
    packets.push(Packet {
        seconds: 100,
        fraction,
        original: frame.len().min(65_535) as u32,
        bytes,
    })
}

/// A capture of these frames: the first packet comes at 100.000005 seconds, the next a microsecond later.
fn capture_of(alloc: Global, frames: &[&[u8]]) -> Result<Packets, NoMemory> {
    let mut packets = Packets::new(alloc);
    let mut fraction: u32 = 5;
    for frame in frames {
        push_packet(alloc, &mut packets, fraction, frame)?;
        fraction = fraction.wrapping_add(1);
    }
    Ok(packets)
}

/// Whether a system takes these packets.
fn are_taken(packets: &[Packet]) -> bool
    ensures { IsTrue result → All IsShort packets.now }
{
    packets
        .iter()
        .all(|packet| packet.bytes.len() <= MOST_CAPTURED as usize)
}

/// The line of an event.
fn line_of(alloc: Global, event: &Event, reply: &Reply) -> Result<Text, NoMemory> {
    put_line(alloc, event, reply)
}

/// Appends the line of an event.
fn put_reply(
    alloc: Global,
    report: &mut String,
    event: &Event,
    reply: &Reply,
) -> Result<(), NoMemory> {
    let line = line_of(alloc, event, reply)?;
    report.push_str(line.as_str())?;
    Ok(())
}

/// Performs an event, and appends its line; whether it was performed.
fn perform<P: Program>(
    alloc: Global,
    system: &mut System<P>,
    event: &Event,
    report: &mut String,
) -> Result<bool, NoMemory>
    requires { system.old.stopped ≡ false }
    ensures { IfOk result (λ done. IsTrue done → system.new.stopped ≡ false) }
{
    let Ok(reply) = system.on(event) else {
        return Ok(false);
    };
    put_reply(alloc, report, event, &reply)?;
    Ok(true)
}

/// The same of all these events.
fn perform_all<P: Program>(
    alloc: Global,
    system: &mut System<P>,
    events: &[Event],
    report: &mut String,
) -> Result<bool, NoMemory>
    requires { system.old.stopped ≡ false }
    ensures { IfOk result (λ done. IsTrue done → system.new.stopped ≡ false) }
{
    match events {
        [] => Ok(true),
        [event, rest @ ..] => {
            if !perform(alloc, system, event, report)? {
                return Ok(false);
            }
            perform_all(alloc, system, rest, report)
        }
    }
}

/// Runs a system of the seed by the events, and appends their lines: how it ended; none where an event was not
/// performed.
fn run_of<P: Program>(
    alloc: Global,
    program: P,
    threads: u32,
    packets: Packets,
    events: &[Event],
    report: &mut String,
) -> Result<Option<Finished>, NoMemory>
    requires some { 1 ≤ threads }
    requires few { threads ≤ 16 }
    requires short { All IsShort packets }
{
    let mut system = System::new(alloc, program, threads, false, SEED, Unit::Micro, packets)?;
    match perform_all(alloc, &mut system, events, report) {
        Ok(true) => Ok(Some(system.finish(Memory::GivenBack)?)),
        ended => {
            system.discard();
            ended.map(|_| None)
        }
    }
}

/// The same on a capture of these frames; none also where a frame is too long.
fn run_on<P: Program>(
    alloc: Global,
    program: P,
    threads: u32,
    frames: &[&[u8]],
    events: &[Event],
    report: &mut String,
) -> Result<Option<Finished>, NoMemory>
    requires some { 1 ≤ threads }
    requires few { threads ≤ 16 }
{
    let packets = capture_of(alloc, frames)?;
    if !are_taken(packets.as_slice()) {
        return Ok(None);
    }
    run_of(alloc, program, threads, packets, events, report)
}

/// Appends a move.
fn put_move(report: &mut String, thread: u32, answer: Option<u64>) -> Result<(), NoMemory> {
    report.push(' ')?;
    put_decimal(report, u64::from(thread))?;
    if let Some(told) = answer {
        report.push('=')?;
        put_decimal(report, told)?;
    }
    Ok(())
}

/// Appends the counts at the end, and the moves of the schedule.
fn put_end(report: &mut String, end: &Finished) -> Result<(), NoMemory> {
    let (fed, epoch, released) = (end.fed, end.epoch, end.released);
    write!(
        report,
        "done fed {fed} epoch {epoch} released {released}\nmoves"
    )?;
    for index in 0..end.schedule.len() {
        let plain = end.schedule.at(index);
        put_move(report, plain.thread, plain.answer)?;
    }
    Ok(())
}

/// Whether a report is this one, with the counts at the end and the moves of the schedule in its last lines.
fn is_whole(report: &mut String, end: &Finished, right: &str) -> Result<bool, NoMemory> {
    put_end(report, end)?;
    Ok(report.as_str() == right)
}

/// Whether these events are performed and leave this report.
fn leave<P: Program>(
    alloc: Global,
    program: P,
    threads: u32,
    frames: &[&[u8]],
    events: &[Event],
    report: &str,
) -> Result<bool, NoMemory>
    requires some { 1 ≤ threads }
    requires few { threads ≤ 16 }
{
    let mut told = String::new(alloc);
    match run_on(alloc, program, threads, frames, events, &mut told)? {
        Some(end) => is_whole(&mut told, &end, report),
        None => Ok(false),
    }
}

/// The same of the events of a script.
pub fn leaves<P: Program>(
    alloc: Global,
    program: P,
    threads: u32,
    frames: &[&[u8]],
    script: &str,
    report: &str,
) -> Result<bool, NoMemory>
    requires some { 1 ≤ threads }
    requires few { threads ≤ 16 }
{
    match read_script(alloc, script.as_bytes()) {
        Ok(events) => leave(alloc, program, threads, frames, events.as_slice(), report),
        Err(_) => Ok(false),
    }
}
