//! Commands of which a read or a write fails.
use crate::commands::{Case, Fault, comes_to};
use job_top::Status;
use plain_text::NoMemory;
use sample_frames::{ONE_COUNTED, ONE_PACKET, TWO_PACKETS, WRITTEN_MICRO};
use std::alloc::Global;
use std::test::Fail;

/// Two threads that count: the second's output waits for an entry of the first, and leaves with it.
const RUN: Case<'static> = Case {
    files: &[
        ("box", b"box count\nthreads 2\n"),
        ("in", TWO_PACKETS),
        (
            "script",
            b"feed 2\nstep 1\nstep 1\nstep 0\nstep 0\nstep 0\nlog 0 1\nout 0 1\nlog 1 1\n",
        ),
    ],
    commands: &[&["run", "box", "in", "script", "out", "moves"]],
    status: Status::Done,
    left: &[("out", Some(RELEASED)), ("moves", Some(MOVES))],
    report: b"feed 2 total 2\nstep 1 take 1\nstep 1 entry 1 touch 0 place 1\nstep 0 take 1\nstep 0 entry 1 touch 0 place 2\nstep 0 output 1\nlog 0 1 new\nout 0 1 waits 1 1\nlog 1 1 new 0:1\ndone fed 2 epoch 1 released 1\n",
    is_whole_report: true,
};

/// The first packet, with the count 2.
const RELEASED: &[u8] =
    b"\xd4\xc3\xb2\xa1\x02\0\x04\0\0\0\0\0\0\0\0\0\0\0\x04\0\x01\0\0\0d\0\0\0\x05\0\0\0*\0\0\0*\0\0\0\x02\0\0\0\0\x02\x02\0\0\0\0\x01\x08\0E\0\0\x1c\0\x01\0\0@\x11F\x91\n\0\0\x05\xc63d\x07\x13\x88\05\0\x08\xb7\xe1";

const MOVES: &[u8] = b"1\n1\n0\n0\n0\n";

/// The lines of the report before the packet leaves.
const BEFORE: &[u8] =
    b"feed 2 total 2\nstep 1 take 1\nstep 1 entry 1 touch 0 place 1\nstep 0 take 1\nstep 0 entry 1 touch 0 place 2\nstep 0 output 1\nlog 0 1 new\nout 0 1 waits 1 1\n";

/// The lines of the report before the last one.
const AFTER: &[u8] =
    b"feed 2 total 2\nstep 1 take 1\nstep 1 entry 1 touch 0 place 1\nstep 0 take 1\nstep 0 entry 1 touch 0 place 2\nstep 0 output 1\nlog 0 1 new\nout 0 1 waits 1 1\nlog 1 1 new 0:1\n";

/// The released capture of one packet, checked.
const CHECK: Case<'static> = Case {
    files: &[
        ("box", b"box count"),
        ("in", ONE_PACKET),
        ("moves", b"0\n0\n0\n0\n"),
        ("released", ONE_COUNTED),
    ],
    commands: &[&["check", "box", "in", "moves", "released"]],
    status: Status::Done,
    left: &[("released", Some(ONE_COUNTED))],
    report: b"found 1\n",
    is_whole_report: true,
};

/// The schedule of one packet, played.
const PLAY: Case<'static> = Case {
    commands: &[&["play", "box", "in", "moves", "out"]],
    left: &[("out", Some(ONE_COUNTED))],
    report: b"emitted 1\n",
    ..CHECK
};

/// A capture of one packet, made.
const MAKE: Case<'static> = Case {
    files: &[],
    commands: &[&["make", "7", "1", "c"]],
    status: Status::WriteFault,
    left: &[],
    report: b"",
    is_whole_report: true,
};

/// Names, and the bytes that each has, where it is there.
type Names = &'static [(&'static str, Option<&'static [u8]>)];

/// A capture of no packets, made.
const MAKE_NONE: Case<'static> = Case {
    commands: &[&["make", "7", "0", "c"]],
    ..MAKE
};

/// The first of this number of reads of a case that fails, and does not come to a read fault with this left and nothing
/// reported.
fn first_wrong_read<'a>(
    alloc: Global,
    case: &Case<'a>,
    reads: u64,
    left: &'a [(&'a str, Option<&'a [u8]>)],
) -> Result<Option<u64>, NoMemory> {
    let fails = Case {
        status: Status::ReadFault,
        left,
        report: b"",
        ..*case
    };
    for nth in 1..=reads {
        if !comes_to(alloc, Fault::Read(nth), &fails)? {
            return Ok(Some(nth));
        }
    }
    Ok(None)
}

/// A command, how many reads it makes, and what is left where one of them fails. Each file is opened, gives its bytes,
/// and then gives none.
const READS: [(Case<'static>, u64, Names); 3] = [
    (RUN, 9, &[("out", None), ("moves", None)]),
    (CHECK, 12, &[("released", Some(ONE_COUNTED))]),
    (PLAY, 9, &[("out", None)]),
];

#[test]
fn names_a_read_that_failed(rt: HostRuntime) -> Result<(), Fail> {
    for (row, (case, reads, left)) in READS.iter().enumerate() {
        let wrong = first_wrong_read(rt.alloc(), case, *reads, left)?;
        assert!(rt; wrong.is_none(), "{row}: {wrong:?}");
    }
    Ok(())
}

/// A command, and a call that it does not make any more.
const LATER: [(Case<'static>, Fault); 5] = [
    (RUN, Fault::Read(10)),
    (RUN, Fault::Write(9)),
    (CHECK, Fault::Read(13)),
    (PLAY, Fault::Read(10)),
    (PLAY, Fault::Write(5)),
];

#[test]
fn fails_by_no_later_call(rt: HostRuntime) -> Result<(), Fail> {
    for (row, (case, fault)) in LATER.iter().enumerate() {
        assert!(rt; comes_to(rt.alloc(), *fault, case)?, "{row}");
    }
    Ok(())
}

/// What is left, and the report, where a write fails.
type Left = (
    &'static [(&'static str, Option<&'static [u8]>)],
    &'static [u8],
);

/// The first of the writes of a case that fails, and does not come to a write fault with what is to be left.
fn first_wrong_write(
    alloc: Global,
    case: &Case<'_>,
    all_left: &[Left],
) -> Result<Option<u64>, NoMemory> {
    let mut nth = 0u64;
    for (left, report) in all_left {
        nth = nth.saturating_add(1);
        let fails = Case {
            status: Status::WriteFault,
            left,
            report,
            ..*case
        };
        if !comes_to(alloc, Fault::Write(nth), &fails)? {
            return Ok(Some(nth));
        }
    }
    Ok(None)
}

/// What is left where the first, the second and so on of the writes of a run fails: that creates the released capture,
/// its header, that creates the schedule, the lines before a packet leaves, its record, the line behind it, the
/// schedule, the last line.
const LEFT_BY_RUN: [Left; 8] = [
    (&[("out", None), ("moves", None)], b""),
    (&[("out", Some(b"")), ("moves", None)], b""),
    (&[("out", Some(WRITTEN_MICRO)), ("moves", None)], b""),
    (&[("out", Some(WRITTEN_MICRO)), ("moves", Some(b""))], b""),
    (
        &[("out", Some(WRITTEN_MICRO)), ("moves", Some(b""))],
        BEFORE,
    ),
    (&[("out", Some(RELEASED)), ("moves", Some(b""))], BEFORE),
    (&[("out", Some(RELEASED)), ("moves", Some(b""))], AFTER),
    (&[("out", Some(RELEASED)), ("moves", Some(MOVES))], AFTER),
];

/// The same of a play: the write that creates OUT, its header, its packets, the report.
const LEFT_BY_PLAY: [Left; 4] = [
    (&[("out", None)], b""),
    (&[("out", Some(b""))], b""),
    (&[("out", Some(WRITTEN_MICRO))], b""),
    (&[("out", Some(ONE_COUNTED))], b""),
];

/// The same of a check, which writes the report alone.
const LEFT_BY_CHECK: [Left; 1] = [(&[("released", Some(ONE_COUNTED))], b"")];

/// The same of a capture of one packet or of none.
const LEFT_BY_MAKE: [Left; 3] = [
    (&[("c", None)], b""),
    (&[("c", Some(b""))], b""),
    (&[("c", Some(WRITTEN_MICRO))], b""),
];

/// A command, and what is left where the first, the second and so on of its writes fails.
const WRITES: [(Case<'static>, &[Left]); 5] = [
    (RUN, &LEFT_BY_RUN),
    (PLAY, &LEFT_BY_PLAY),
    (CHECK, &LEFT_BY_CHECK),
    (MAKE, &LEFT_BY_MAKE),
    (MAKE_NONE, &LEFT_BY_MAKE),
];

#[test]
fn names_a_write_that_failed(rt: HostRuntime) -> Result<(), Fail> {
    for (row, (case, left)) in WRITES.iter().enumerate() {
        let wrong = first_wrong_write(rt.alloc(), case, left)?;
        assert!(rt; wrong.is_none(), "{row}: {wrong:?}");
    }
    Ok(())
}
