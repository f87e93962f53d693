//! Pictures of runs with many events, and pictures and traces of runs that are too large.
use crate::commands::{Case, Fault, comes_to};
use crate::large::SETTLED;
use crate::limits::repeat_behind;
use job_top::Status;
use plain_text::Limit;
use sample_frames::TWO_PACKETS;
use std::test::Fail;

/// A picture of a run with no events, whose last line is this report.
const EMPTY: Case<'static> = Case {
    files: &[("box", b"box count"), ("in", TWO_PACKETS), ("script", b"")],
    commands: &[&["picture", "box", "in", "script", "picture"]],
    status: Status::Done,
    left: &[],
    report: b"done fed 0 epoch 1 released 0\n",
    is_whole_report: true,
};

#[test]
fn draws_100_000_events(rt: HostRuntime) -> Result<(), Fail> {
    let script = repeat_behind(rt.alloc(), b"feed 2\n", b"step 0\n", 99_999)?;
    let files: [(&str, &[u8]); 3] = [
        ("box", b"box count"),
        ("in", TWO_PACKETS),
        ("script", script.as_slice()),
    ];
    let case = Case {
        files: &files,
        report: b"done fed 2 epoch 1 released 0\n",
        ..EMPTY
    };
    assert!(rt; comes_to(rt.alloc(), Fault::Nothing, &case)?);
    Ok(())
}

/// A picture of a run that would pass the limit of moves: nothing is written.
const TOO_MANY_MOVES: Case<'static> = Case {
    files: &[("box", b"box monitor\n"), ("script", SETTLED)],
    commands: &[
        &["make", "1", "65536", "in"],
        &["picture", "box", "in", "script", "out"],
    ],
    status: Status::TooLarge(Limit::Moves),
    left: &[("out", None)],
    report: b"made 65536\n",
    is_whole_report: true,
};

#[test]
fn pictures_stop_at_2_000_000_moves(rt: HostRuntime) -> Result<(), Fail> {
    assert!(rt; comes_to(rt.alloc(), Fault::Nothing, &TOO_MANY_MOVES)?);
    Ok(())
}

#[test]
fn traces_stop_at_2_000_000_moves(rt: HostRuntime) -> Result<(), Fail> {
    let case = Case {
        commands: &[
            &["make", "1", "65536", "in"],
            &["trace", "box", "in", "script", "out"],
        ],
        ..TOO_MANY_MOVES
    };
    assert!(rt; comes_to(rt.alloc(), Fault::Nothing, &case)?);
    Ok(())
}
