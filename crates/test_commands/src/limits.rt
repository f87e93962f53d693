//! Inputs at the limits, and scripts of many events.
use crate::commands::{Case, Fault, comes_to};
use job_top::{InputFault, Status};
use plain_text::{Bytes, Limit, LineCause, LineFault, NoMemory};
use sample_frames::{LITTLE_MICRO, ONE_COUNTED, ONE_PACKET, WRITTEN_MICRO};
use std::alloc::Global;
use std::test::Fail;

/// The most bytes of a file.
const MOST: usize = 67_108_864;

/// Bytes, and behind them others this number of times.
pub fn repeat_behind(
    alloc: Global,
    first: &[u8],
    others: &[u8],
    count: u32,
) -> Result<Bytes, NoMemory> {
    let mut all = Bytes::of(alloc, first)?;
    for _ in 0..count {
        all.extend(others)?;
    }
    Ok(all)
}

/// A text, and behind it this number of spaces.
fn put_spaces_behind(alloc: Global, text: &[u8], count: usize) -> Result<Bytes, NoMemory> {
    let mut all = Bytes::of(alloc, text)?;
    all.extend(vec![in alloc; b' '; count]?.as_slice())?;
    Ok(all)
}

/// Whether a run of one packet through the counting box, but with these bytes as this file, comes to this status, and
/// nothing is created.
fn refuses<'a>(
    alloc: Global,
    name: &'a str,
    bytes: &'a [u8],
    status: Status,
) -> Result<bool, NoMemory> {
    let case = Case {
        files: &[
            ("box", b"box count"),
            ("in", ONE_PACKET),
            ("script", b"settle"),
            (name, bytes),
        ],
        commands: &[&["run", "box", "in", "script", "out", "moves"]],
        status,
        left: &[("out", None), ("moves", None)],
        report: b"",
        is_whole_report: true,
    };
    comes_to(alloc, Fault::Nothing, &case)
}

/// A file, its text, the number of spaces behind that, and what a run with it comes to. The lines of a file are judged
/// before its size.
const LARGE: [(&str, &[u8], usize, Status); 6] = [
    (
        "script",
        b"stop 1\n",
        MOST,
        Status::BadInput(InputFault::Script(LineFault {
            line: 1,
            cause: LineCause::UnknownWord,
        })),
    ),
    ("script", b"settle\n", MOST, Status::TooLarge(Limit::File)),
    ("script", b"", MOST + 1, Status::TooLarge(Limit::File)),
    (
        "box",
        b"box count\nthreads 17\n",
        MOST,
        Status::BadInput(InputFault::BoxFile(LineFault {
            line: 2,
            cause: LineCause::OutOfRange,
        })),
    ),
    ("box", b"box count\n", MOST, Status::TooLarge(Limit::File)),
    ("box", b"", MOST + 1, Status::TooLarge(Limit::File)),
];

/// Whether a run with a file of this text and this number of spaces comes to this status, and nothing is created.
fn refuses_spaces(
    alloc: Global,
    name: &str,
    text: &[u8],
    spaces: usize,
    status: Status,
) -> Result<bool, NoMemory> {
    let bytes = put_spaces_behind(alloc, text, spaces)?;
    refuses(alloc, name, bytes.as_slice(), status)
}

#[test]
fn judges_the_lines_of_a_file_that_is_too_large(rt: HostRuntime) -> Result<(), Fail> {
    for (row, (name, text, spaces, status)) in LARGE.iter().enumerate() {
        let right = refuses_spaces(rt.alloc(), name, text, *spaces, *status)?;
        assert!(rt; right, "row {row}");
    }
    Ok(())
}

/// The header of a record of 262,144 bytes, the most that a record may have.
const LARGE_RECORD: &[u8] = b"\0\0\0\0\0\0\0\0\0\0\x04\0\0\0\x04\0";

/// A capture of this number of such records, of zeros.
fn capture_of_large_records(alloc: Global, count: u32) -> Result<Bytes, NoMemory> {
    let mut record = Bytes::of(alloc, LARGE_RECORD)?;
    record.extend(vec![in alloc; 0u8; 262_144]?.as_slice())?;
    repeat_behind(alloc, LITTLE_MICRO, record.as_slice(), count)
}

/// Whether a run with such a capture is refused.
fn refuses_large_records(alloc: Global, count: u32) -> Result<bool, NoMemory> {
    let capture = capture_of_large_records(alloc, count)?;
    let status = Status::TooLarge(Limit::File);
    refuses(alloc, "in", capture.as_slice(), status)
}

/// Whether a run with a file of these bytes and this number of others behind them passes this limit.
fn refuses_many(
    alloc: Global,
    name: &str,
    first: &[u8],
    others: (&[u8], u32),
    limit: Limit,
) -> Result<bool, NoMemory> {
    let bytes = repeat_behind(alloc, first, others.0, others.1)?;
    refuses(alloc, name, bytes.as_slice(), Status::TooLarge(limit))
}

/// Whether a drill of 65,537 packets passes the limit of packets, and nothing is created.
fn drill_stops_at_packets(alloc: Global) -> Result<bool, NoMemory> {
    let capture = repeat_behind(alloc, LITTLE_MICRO, &[0; 16], 65_537)?;
    let case = Case {
        files: &[("box", b"box count"), ("in", capture.as_slice())],
        status: Status::TooLarge(Limit::Packets),
        left: &[("out", None), ("moves", None)],
        report: b"",
        commands: &[&["drill", "box", "in", "1", "out", "moves"]],
        is_whole_report: true,
    };
    comes_to(alloc, Fault::Nothing, &case)
}

#[test]
fn stops_at_limits(rt: HostRuntime) -> Result<(), Fail> {
    let alloc = rt.alloc();
    let events: (&[u8], u32) = (b"time 7\n", 4_000_001);
    assert!(rt; refuses_many(alloc, "script", b"", events, Limit::Events)?);
    let packets: (&[u8], u32) = (&[0; 16], 65_537);
    assert!(rt; refuses_many(alloc, "in", LITTLE_MICRO, packets, Limit::Packets)?);
    assert!(rt; drill_stops_at_packets(alloc)?);
    assert!(rt; refuses_large_records(alloc, 256)?);
    Ok(())
}

/// Whether the run of one packet with this script leaves these files and this report.
fn performs<'a>(
    alloc: Global,
    script: &'a [u8],
    released: &'a [u8],
    schedule: &'a [u8],
    report: &'a [u8],
) -> Result<bool, NoMemory> {
    let case = Case {
        files: &[
            ("box", b"box count"),
            ("in", ONE_PACKET),
            ("script", script),
        ],
        commands: &[&["run", "box", "in", "script", "out", "moves"]],
        status: Status::Done,
        left: &[("out", Some(released)), ("moves", Some(schedule))],
        report,
        is_whole_report: true,
    };
    comes_to(alloc, Fault::Nothing, &case)
}

#[test]
fn performs_a_script_as_large_as_a_file_may_be(rt: HostRuntime) -> Result<(), Fail> {
    let script = put_spaces_behind(rt.alloc(), b"settle\n", MOST - 7)?;
    let report = b"settle moves 4 released 1 epoch 1\ndone fed 1 epoch 1 released 1\n";
    let right = performs(
        rt.alloc(),
        script.as_slice(),
        ONE_COUNTED,
        b"0\n0\n0\n0\n",
        report,
    )?;
    assert!(rt; right);
    Ok(())
}

#[test]
fn performs_2_000_000_events(rt: HostRuntime) -> Result<(), Fail> {
    let alloc = rt.alloc();
    let script = repeat_behind(alloc, b"", b"time 7\n", 2_000_000)?;
    let mut report = repeat_behind(alloc, b"", b"time 7 set\n", 2_000_000)?;
    report.extend(b"done fed 0 epoch 1 released 0\n")?;
    let right = performs(
        alloc,
        script.as_slice(),
        WRITTEN_MICRO,
        b"",
        report.as_slice(),
    )?;
    assert!(rt; right);
    Ok(())
}
