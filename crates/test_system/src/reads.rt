//! Scripts of a box whose odd packets read and do not touch. No box of the program reads alone, so no stored session
//! can have these.
use crate::replay::leaves;
use box_program::PeekBox;
use plain_text::NoMemory;
use sample_frames::{NEXT_QUERY, QUERY};
use std::alloc::Global;
use std::test::Fail;

/// A script, and the report and the moves that it leaves.
type Row = (&'static str, &'static str);

/// A reader beside a counter. A packet with an odd number of bytes reads, and its output waits for what it read. A read
/// is followed at its place, and a touch without the read before it is dropped.
const PEEKS: [Row; 3] = [
    (
        "feed 2\nstep 1\nstep 1\nstep 0\nstep 0\nstep 1\nout 1 1\nlog 0 1\nlog 1 1\n",
        "feed 2 total 2\nstep 1 take 1\nstep 1 entry 1 read 0 after 0\nstep 0 take 1\nstep 0 entry 1 touch 0 place 1\nstep 1 output 1\nout 1 1 waits 1 1\nlog 0 1 new\nlog 1 1 new 1:1\ndone fed 2 epoch 1 released 1\nmoves 1 1 0 0 1",
    ),
    (
        "feed 2\nstep 1\nstep 1\nstep 0\nstep 0\nstep 1\nlog 0 1\nlog 1 1\ncrash\nrecover\nstep 0\nstep 0\nstep 1\nstep 1\nstep 0\n",
        "feed 2 total 2\nstep 1 take 1\nstep 1 entry 1 read 0 after 0\nstep 0 take 1\nstep 0 entry 1 touch 0 place 1\nstep 1 output 1\nlog 0 1 new\nlog 1 1 new\ncrash done\nrecover epoch 2 keeps 2 drops 0\nstep 0 take 1\nstep 0 waits 1 1\nstep 1 take 1\nstep 1 entry 1 read 0 after 0\nstep 0 entry 1 touch 0 place 1\ndone fed 2 epoch 2 released 0\nmoves 0 1 1 0",
    ),
    (
        "feed 2\nstep 1\nstep 1\nstep 0\nstep 0\nstep 1\nlog 0 1\ncrash\nrecover\n",
        "feed 2 total 2\nstep 1 take 1\nstep 1 entry 1 read 0 after 0\nstep 0 take 1\nstep 0 entry 1 touch 0 place 1\nstep 1 output 1\nlog 0 1 new\ncrash done\nrecover epoch 2 keeps 0 drops 1\ndone fed 2 epoch 2 released 0\nmoves",
    ),
];

/// Two readers: a free read waits for no other.
const READS: Row = (
    "feed 2\nstep 1\nstep 1\nlog 1 1\ncrash\nrecover\nstep 0\nstep 0\n",
    "feed 2 total 2\nstep 1 take 1\nstep 1 entry 1 read 0 after 0\nlog 1 1 new\ncrash done\nrecover epoch 2 keeps 1 drops 0\nstep 0 take 1\nstep 0 entry 1 read 0 after 0\ndone fed 2 epoch 2 released 0\nmoves 0 0 1 1",
);

/// A frame with a byte of 0 behind it.
fn longer(alloc: Global, query: &[u8]) -> Result<Vec<u8>, NoMemory> {
    let mut frame = Vec::from_slice(alloc, query)?;
    frame.push(0)?;
    Ok(frame)
}

/// Whether a reader beside a counter leaves this report.
fn one_reads(alloc: Global, script: &str, report: &str) -> Result<bool, NoMemory> {
    let read = longer(alloc, &NEXT_QUERY)?;
    let frames: [&[u8]; 2] = [&QUERY, read.as_slice()];
    leaves(alloc, PeekBox::new(), 2, &frames, script, report)
}

/// Whether two readers leave this report.
fn two_read(alloc: Global, script: &str, report: &str) -> Result<bool, NoMemory> {
    let first = longer(alloc, &QUERY)?;
    let next = longer(alloc, &NEXT_QUERY)?;
    let frames: [&[u8]; 2] = [first.as_slice(), next.as_slice()];
    leaves(alloc, PeekBox::new(), 2, &frames, script, report)
}

#[test]
fn scripts_with_reads(rt: HostRuntime) -> Result<(), Fail> {
    for (script, report) in PEEKS {
        assert!(rt; one_reads(rt.alloc(), script, report)?, "at {script}");
    }
    let (script, report) = READS;
    assert!(rt; two_read(rt.alloc(), script, report)?);
    Ok(())
}
