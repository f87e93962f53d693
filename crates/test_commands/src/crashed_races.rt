//! Two threads race over the tables of a NAT, and the master crashes at each event of the race.
use crate::commands::{Case, Fault, comes_to};
use job_top::Status;
use plain_text::{Bytes, NoMemory};
use std::alloc::Global;
use std::test::Fail;

/// Four outside ports, for two threads.
const RACE_BOX: &[u8] =
    b"box nat\nseed 42\nshards 1\nthreads 2\ninside 10.0.0.0 8\noutside 203.0.113.1\nports 39276 39279";

/// A capture of `QUERY`, and of `OTHER_QUERY` a microsecond later.
const QUERY_AND_OTHER: &[u8] =
    b"\xd4\xc3\xb2\xa1\x02\0\x04\0\0\0\0\0\0\0\0\0\xff\xff\0\0\x01\0\0\0d\0\0\0\x05\0\0\0*\0\0\0*\0\0\0\x02\0\xaa\xaa\xaa\xaa\x02\0\0\0\0\x01\x08\0E\0\0\x1c\0\x01\0\0@\x11F\x91\x0a\0\0\x05\xc63d\x07\x13\x88\05\0\x08\xb7\xe1d\0\0\0\x06\0\0\0*\0\0\0*\0\0\0\x02\0\xaa\xaa\xaa\xaa\x02\0\0\0\0\x01\x08\0E\0\0\x1c\0\x01\0\0@\x11F\x90\x0a\0\0\x05\xc63d\x08\x13\x88\05\0\x08\xb7\xe0";

/// Both queries from 203.0.113.1:39278.
const FROM_ONE_PORT: &[u8] =
    b"\xd4\xc3\xb2\xa1\x02\0\x04\0\0\0\0\0\0\0\0\0\0\0\x04\0\x01\0\0\0d\0\0\0\x05\0\0\0*\0\0\0*\0\0\0\x02\0\xaa\xaa\xaa\xaa\x02\0\0\0\0\x01\x08\0E\0\0\x1c\0\x01\0\0@\x11\x14\x94\xcb\0q\x01\xc63d\x07\x99n\05\0\x08\xff\xfdd\0\0\0\x06\0\0\0*\0\0\0*\0\0\0\x02\0\xaa\xaa\xaa\xaa\x02\0\0\0\0\x01\x08\0E\0\0\x1c\0\x01\0\0@\x11\x14\x93\xcb\0q\x01\xc63d\x08\x99n\05\0\x08\xff\xfc";

/// Both queries from 203.0.113.1:39276.
const FROM_THE_OTHER_PORT: &[u8] =
    b"\xd4\xc3\xb2\xa1\x02\0\x04\0\0\0\0\0\0\0\0\0\0\0\x04\0\x01\0\0\0d\0\0\0\x05\0\0\0*\0\0\0*\0\0\0\x02\0\xaa\xaa\xaa\xaa\x02\0\0\0\0\x01\x08\0E\0\0\x1c\0\x01\0\0@\x11\x14\x94\xcb\0q\x01\xc63d\x07\x99l\05\0\x08\xff\xffd\0\0\0\x06\0\0\0*\0\0\0*\0\0\0\x02\0\xaa\xaa\xaa\xaa\x02\0\0\0\0\x01\x08\0E\0\0\x1c\0\x01\0\0@\x11\x14\x93\xcb\0q\x01\xc63d\x08\x99l\05\0\x08\xff\xfe";

/// Both queries from 203.0.113.1:39278, the second one first.
const SECOND_FIRST: &[u8] =
    b"\xd4\xc3\xb2\xa1\x02\0\x04\0\0\0\0\0\0\0\0\0\0\0\x04\0\x01\0\0\0d\0\0\0\x06\0\0\0*\0\0\0*\0\0\0\x02\0\xaa\xaa\xaa\xaa\x02\0\0\0\0\x01\x08\0E\0\0\x1c\0\x01\0\0@\x11\x14\x93\xcb\0q\x01\xc63d\x08\x99n\05\0\x08\xff\xfcd\0\0\0\x05\0\0\0*\0\0\0*\0\0\0\x02\0\xaa\xaa\xaa\xaa\x02\0\0\0\0\x01\x08\0E\0\0\x1c\0\x01\0\0@\x11\x14\x94\xcb\0q\x01\xc63d\x07\x99n\05\0\x08\xff\xfd";

/// What a race leaves: its released capture, and the tables of the NAT as they are shown.
#[derive(Clone, Copy)]
struct Left<'a> {
    released: &'a [u8],
    tables: &'a [u8],
}

/// Both packets have left from port 39278, which alone stands for the endpoint.
const LEFT_WITH_39278: Left<'static> = Left {
    released: FROM_ONE_PORT,
    tables: b"show 1 tcp 4 udp 3\nshow 2 udp 10.0.0.5:5000 39278 100000006\nshow 3 udp 39278 10.0.0.5:5000\n",
};

/// The same with port 39276.
const LEFT_WITH_39276: Left<'static> = Left {
    released: FROM_THE_OTHER_PORT,
    tables: b"show 1 tcp 4 udp 3\nshow 2 udp 10.0.0.5:5000 39276 100000006\nshow 3 udp 39276 10.0.0.5:5000\n",
};

/// How a script goes on from the event at which the master crashes, and the last lines of the reports of its run and
/// its check.
#[derive(Clone, Copy)]
struct Ending<'a> {
    events: &'a [u8],
    last: &'a [u8],
}

/// A new master goes on to the end.
const CRASHED: Ending<'static> = Ending {
    events: b"crash\nrecover\nsettle\nshow 1\nshow 2\nshow 3\n",
    last: b"done fed 2 epoch 2 released 2\nfound 2\n",
};

/// The new master crashes in the middle of its replay, and so does the next one.
const CRASHED_IN_REPLAYS: Ending<'static> = Ending {
    events: b"crash\nrecover\nstep 0\nstep 1\nstep 0\ncrash\nrecover\nstep 1\nstep 1\nstep 0\nstep 0\nstep 0\ncrash\nrecover\nsettle\nshow 1\nshow 2\nshow 3\n",
    last: b"done fed 2 epoch 4 released 2\nfound 2\n",
};

/// The moves of the race. Both threads take a port before either is mapped; the first to be mapped, thread 1's, is the
/// endpoint's.
const MOVES: [&str; 20] = [
    "step 0\n",
    "step 0\n",
    "step 0\n",
    "step 1\n",
    "step 1\n",
    "step 1\n",
    "step 0 = 0\n",
    "step 1 = 0\n",
    "step 0\n",
    "step 1\n",
    "step 0\n",
    "step 1\n",
    "step 1\n",
    "step 1\n",
    "step 0\n",
    "step 0\n",
    "step 0\n",
    "step 0\n",
    "step 0\n",
    "step 1\n",
];

/// The same, and each log entry and each output arrives at once.
const LOGGED: [&str; 36] = [
    "step 0\n",
    "step 0\n",
    "log 0 1\n",
    "step 0\n",
    "log 0 2\n",
    "step 1\n",
    "step 1\n",
    "log 1 1\n",
    "step 1\n",
    "log 1 2\n",
    "step 0 = 0\n",
    "log 0 3\n",
    "step 1 = 0\n",
    "log 1 3\n",
    "step 0\n",
    "log 0 4\n",
    "step 1\n",
    "log 1 4\n",
    "step 0\n",
    "log 0 5\n",
    "step 1\n",
    "log 1 5\n",
    "step 1\n",
    "log 1 6\n",
    "step 1\n",
    "out 1 1\n",
    "step 0\n",
    "log 0 6\n",
    "step 0\n",
    "log 0 7\n",
    "step 0\n",
    "log 0 8\n",
    "step 0\n",
    "out 0 1\n",
    "step 0\n",
    "step 1\n",
];

/// What is kept of a race: nothing, each log entry, or a snapshot behind each move.
#[derive(Clone, Copy)]
enum Kept {
    Nothing,
    Entries,
    Snapshots,
}

impl Kept {
    /// What is left after a crash behind this number of events. Both ports that the host's own port asks for, 39276 and
    /// 39278, are even;
    /// an even word takes the first of two that are free, an odd one the second.
    ///
    /// Nothing is kept: thread 0 goes first, draws 2707161783, and maps the host to 39278. Thread 1 finds the mapping.
    ///
    /// Each entry is held: behind ten events it is held that thread 1 looked for the mapping. It is to look again
    /// before thread 0 may map the host, so it goes on to map it, to the port that thread 0 left. Thread 0 took 39276
    /// where it is held that it drew 0, behind twelve events; before, it draws 2707161783 and takes 39278. Behind 26
    /// events the packet of thread 1 has left before the crash.
    ///
    /// A snapshot is stored behind each move: thread 0 goes on first, and has drawn 0 in those of seven moves and more.
    /// It maps the host to 39276, unless thread 1 has mapped it, which is so behind thirteen moves.
    fn left(self, events: usize) -> Left<'static> {
        match self {
            Kept::Nothing => LEFT_WITH_39278,
            Kept::Entries => match events {
                10 | 11 => LEFT_WITH_39276,
                26.. => Left {
                    released: SECOND_FIRST,
                    ..LEFT_WITH_39278
                },
                _ => LEFT_WITH_39278,
            },
            Kept::Snapshots => match events / 3 {
                7..=12 => LEFT_WITH_39276,
                _ => LEFT_WITH_39278,
            },
        }
    }
}

/// The lines of these events.
fn events_of(alloc: Global, events: &[&str]) -> Result<Bytes, NoMemory> {
    let mut script = Bytes::new(alloc);
    for event in events {
        script.extend(event.as_bytes())?;
    }
    Ok(script)
}

/// The script of a race of both packets that goes on so behind these events.
fn script_of(alloc: Global, events: &[&str], ending: Ending<'_>) -> Result<Bytes, NoMemory> {
    let mut script = Bytes::of(alloc, b"feed 2\n")?;
    script.extend(events_of(alloc, events)?.as_slice())?;
    script.extend(ending.events)?;
    Ok(script)
}

/// Whether a race by this script leaves this released capture and ends with this report, and `check` accepts it.
fn is_accepted<'a>(
    alloc: Global,
    script: &'a [u8],
    released: &'a [u8],
    report: &'a [u8],
) -> Result<bool, NoMemory> {
    let case = Case {
        files: &[
            ("box", RACE_BOX),
            ("in", QUERY_AND_OTHER),
            ("script", script),
        ],
        commands: &[
            &["run", "box", "in", "script", "out", "moves"],
            &["check", "box", "in", "moves", "out"],
        ],
        status: Status::Done,
        left: &[("out", Some(released))],
        report,
        is_whole_report: false,
    };
    comes_to(alloc, Fault::Nothing, &case)
}

/// Whether a race whose master crashes behind these events leaves this, and `check` accepts it.
fn leaves(
    alloc: Global,
    events: &[&str],
    ending: Ending<'_>,
    left: Left<'_>,
) -> Result<bool, NoMemory> {
    let script = script_of(alloc, events, ending)?;
    let mut report = Bytes::of(alloc, left.tables)?;
    report.extend(ending.last)?;
    is_accepted(alloc, script.as_slice(), left.released, report.as_slice())
}

/// The least number of events behind which a crash does not leave what it should.
fn first_wrong_crash(
    alloc: Global,
    kept: Kept,
    events: &[&str],
    ending: Ending<'_>,
) -> Result<Option<usize>, NoMemory> {
    for place in 0..events.len() + 1 {
        if !leaves(alloc, &events[..place], ending, kept.left(place))? {
            return Ok(Some(place));
        }
    }
    Ok(None)
}

/// What is kept of a race, its events, and how it goes on behind a crash at each of them.
const RACES: [(Kept, &[&str], Ending<'static>); 3] = [
    (Kept::Nothing, &MOVES, CRASHED),
    (Kept::Entries, &LOGGED, CRASHED),
    (Kept::Entries, &LOGGED, CRASHED_IN_REPLAYS),
];

#[test]
fn a_crash_at_each_event(rt: HostRuntime) -> Result<(), Fail> {
    for (row, (kept, events, ending)) in RACES.iter().enumerate() {
        let wrong = first_wrong_crash(rt.alloc(), *kept, events, *ending)?;
        assert!(rt; wrong.is_none(), "{row}: {wrong:?}");
    }
    Ok(())
}

/// The times and the first look for a mapping arrive, and the new master crashes behind the first move of each thread.
const LOGGED_AT_THE_CRASH: Ending<'static> = Ending {
    events: b"log 0 1\nlog 0 2\nlog 1 1\ncrash\nrecover\nstep 0\nstep 1\ncrash\nsettle\n",
    last: b"done fed 2 epoch 3 released 2\nfound 2\n",
};

/// Both packets come in, and the race goes on to where both threads have taken a port and thread 1 has mapped the host.
const FED_AND_MOVED: [&str; 17] = [
    "feed 2\n",
    "step 0\n",
    "step 0\n",
    "step 0\n",
    "step 1\n",
    "step 1\n",
    "step 1\n",
    "step 0 = 0\n",
    "step 1 = 0\n",
    "step 0\n",
    "step 1\n",
    "step 0\n",
    "step 1\n",
    "step 1\n",
    "step 0\n",
    "step 0\n",
    "step 0\n",
];

/// The least number of these events, from none to all, behind which such a crash does not leave both packets from port
/// 39278.
fn first_wrong_in_replay(alloc: Global) -> Result<Option<usize>, NoMemory> {
    for place in 0..FED_AND_MOVED.len() + 1 {
        let mut script = events_of(alloc, &FED_AND_MOVED[..place])?;
        script.extend(LOGGED_AT_THE_CRASH.events)?;
        let last = LOGGED_AT_THE_CRASH.last;
        if !is_accepted(alloc, script.as_slice(), FROM_ONE_PORT, last)? {
            return Ok(Some(place));
        }
    }
    Ok(None)
}

#[test]
fn a_crash_in_each_replay(rt: HostRuntime) -> Result<(), Fail> {
    let wrong = first_wrong_in_replay(rt.alloc())?;
    assert!(rt; wrong.is_none(), "{wrong:?}");
    Ok(())
}

/// Takes and stores a snapshot behind each move.
fn add_snapshots(events: &mut Vec<&'static str>) -> Result<(), NoMemory> {
    for event in MOVES {
        events.push(event)?;
        events.push("snap\n")?;
        events.push("store\n")?;
    }
    Ok(())
}

/// The least number of events behind which a crash does not leave what it should, with a snapshot behind each move.
fn first_wrong_with_snapshots(alloc: Global) -> Result<Option<usize>, NoMemory> {
    let mut events = Vec::new(alloc);
    add_snapshots(&mut events)?;
    first_wrong_crash(alloc, Kept::Snapshots, events.as_slice(), CRASHED)
}

#[test]
fn a_crash_at_each_event_with_snapshots(rt: HostRuntime) -> Result<(), Fail> {
    let wrong = first_wrong_with_snapshots(rt.alloc())?;
    assert!(rt; wrong.is_none(), "{wrong:?}");
    Ok(())
}
