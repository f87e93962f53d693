//! Rounds, one after another, with crashes between them.
use crate::asked::{Asked, NOTHING};
use crate::boxes::{ALL, released_of};
use crate::racing::Stage;
use frame_intake::FrameName;
use plain_text::Kind;
use recovery_world::Event;
use std::test::Fail;

/// All packets are fed, and the threads race until each is idle.
const ONE_ROUND: [Stage; 3] = [
    Stage::Event(Event::Feed(200)),
    Stage::Round(NOTHING),
    Stage::Idle,
];

#[test]
fn a_round_is_its_steps(rt: HostRuntime) -> Result<(), Fail> {
    for (which, packets) in ALL {
        for threads in 1..=4 {
            let released = released_of(&rt, which, threads, 200, &ONE_ROUND);
            assert!(rt;
                released == Some(packets),
                "{which:?} {threads} {released:?}"
            );
        }
    }
    Ok(())
}

/// Of the first round of each thread some frames arrive. The next master follows what was kept, also where it crashes
/// in the middle of it.
const fn crashed(frames: u64) -> [Stage; 14] {
    let first = Asked {
        take: Some(frames),
        ..NOTHING
    };
    let part = Asked {
        limit: Some(frames),
        ..NOTHING
    };
    [
        Stage::Event(Event::Feed(120)),
        Stage::Round(first),
        Stage::Event(Event::Crash),
        Stage::Event(Event::Recover),
        Stage::Round(part),
        Stage::Event(Event::Crash),
        Stage::Event(Event::Recover),
        Stage::Event(Event::Feed(80)),
        Stage::Round(NOTHING),
        Stage::Idle,
        Stage::Event(Event::Snap),
        Stage::Event(Event::Store),
        Stage::Event(Event::Crash),
        Stage::Event(Event::Recover),
    ]
}

#[test]
fn rounds_follow_after_crashes(rt: HostRuntime) -> Result<(), Fail> {
    for (which, packets) in ALL {
        for threads in 1..=4 {
            for frames in [0, 40, 300] {
                let released = released_of(&rt, which, threads, 200, &crashed(frames));
                let right = released == Some(packets);
                assert!(rt; right, "{which:?} {threads} {frames} {released:?}");
            }
        }
    }
    Ok(())
}

/// A round of a few moves of each thread.
const SHORT: Asked = Asked {
    limit: Some(20),
    exact: true,
    ..NOTHING
};

/// A round in which an entry is lost.
const LOSING: Asked = Asked {
    lost: Some(FrameName {
        kind: Kind::Log,
        thread: 0,
        number: 20,
    }),
    ..NOTHING
};

/// A round in which no thread moves, one of which each thread makes some moves, and one in which an entry is lost.
const ORDERED: [Stage; 5] = [
    Stage::Event(Event::Feed(200)),
    Stage::Round(Asked {
        limit: Some(0),
        ..NOTHING
    }),
    Stage::Round(SHORT),
    Stage::Round(LOSING),
    Stage::Idle,
];

#[test]
fn rounds_keep_their_orders(rt: HostRuntime) -> Result<(), Fail> {
    for (which, packets) in ALL {
        for threads in 1..=4 {
            let released = released_of(&rt, which, threads, 200, &ORDERED);
            let fewer = released.is_some_and(|count| count < packets);
            assert!(rt; fewer, "{which:?} {threads} {released:?}");
        }
    }
    Ok(())
}
