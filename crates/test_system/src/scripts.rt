use chain_text::read_chain;
use plain_text::NoMemory;
use script_text::{Event, Kind, auto_event, put_event, read_script};
use std::alloc::Global;
use std::test::Fail;

/// What a text comes to: the lines of its events, each with a semicolon, or the text of its error.
fn told(alloc: Global, text: &str) -> Result<String, NoMemory> {
    match read_script(alloc, text.as_bytes()) {
        Ok(events) => put_events(alloc, events.as_slice()),
        Err(error) => Ok(format!(in alloc; "{error}")?),
    }
}

/// The lines of these events, each with a semicolon.
fn put_events(alloc: Global, events: &[Event]) -> Result<String, NoMemory> {
    let mut lines = String::new(alloc);
    for event in events {
        add_event(alloc, &mut lines, event)?;
    }
    Ok(lines)
}

fn add_event(alloc: Global, lines: &mut String, event: &Event) -> Result<(), NoMemory> {
    lines.push_str(put_event(alloc, event)?.as_str())?;
    lines.push_str(";")?;
    Ok(())
}

/// Whether a text comes to this, in the words of `told`.
fn comes_to(alloc: Global, text: &str, wanted: &str) -> Result<bool, NoMemory> {
    Ok(told(alloc, text)?.as_str() == wanted)
}

/// Whether a line is read as this event alone.
fn is_read_as(alloc: Global, line: &str, event: &Event) -> bool {
    match read_script(alloc, line.as_bytes()) {
        Ok(events) => match events.as_slice() {
            [only] => only == event,
            _ => false,
        },
        Err(_) => false,
    }
}

/// Whether a line is read as this event alone, and the event is written as this line.
fn stands_for(alloc: Global, line: &str, event: &Event) -> Result<bool, NoMemory> {
    Ok(put_event(alloc, event)?.as_str() == line && is_read_as(alloc, line, event))
}

/// How many events a text is read as, or that they are too many.
fn counted(alloc: Global, text: &str) -> Result<String, NoMemory> {
    match read_script(alloc, text.as_bytes()) {
        Ok(events) => Ok(format!(in alloc; "{}", events.len())?),
        Err(error) => Ok(format!(in alloc; "{error}")?),
    }
}

/// A text, and what it comes to.
type Row = (&'static str, &'static str);

/// Lines, and the event for which each stands.
const LINES: [(&str, Event); 18] = [
    ("feed 0", Event::Feed(0)),
    ("feed 18446744073709551615", Event::Feed(u64::MAX)),
    ("time 1600000000000000", Event::Time(1_600_000_000_000_000)),
    (
        "step 15",
        Event::Step {
            thread: 15,
            answer: None,
        },
    ),
    (
        "step 0 = 9",
        Event::Step {
            thread: 0,
            answer: Some(9),
        },
    ),
    (
        "log 1 20",
        Event::Log {
            thread: 1,
            number: 20,
        },
    ),
    (
        "out 3 1",
        Event::Out {
            thread: 3,
            number: 1,
        },
    ),
    (
        "late 1 log 2 3",
        Event::Late {
            epoch: 1,
            kind: Kind::Log,
            thread: 2,
            number: 3,
        },
    ),
    (
        "late 4 out 5 6",
        Event::Late {
            epoch: 4,
            kind: Kind::Out,
            thread: 5,
            number: 6,
        },
    ),
    (
        "cut log 0 1 46",
        Event::Cut {
            kind: Kind::Log,
            thread: 0,
            number: 1,
            length: 46,
        },
    ),
    (
        "cut out 7 8 9",
        Event::Cut {
            kind: Kind::Out,
            thread: 7,
            number: 8,
            length: 9,
        },
    ),
    ("snap", Event::Snap),
    ("store", Event::Store),
    ("crash", Event::Crash),
    ("recover", Event::Recover),
    ("show 255", Event::Show(255)),
    ("settle", Event::Settle),
    ("auto 7 30000", Event::Auto { seed: 7, n: 30_000 }),
];

/// Scripts, and the lines of their events.
const READ: [Row; 6] = [
    ("", ""),
    ("# nothing\n\n \t\r\n", ""),
    ("settle", "settle;"),
    ("snap\r\nstore\r\n", "snap;store;"),
    (
        "#1\n\n\tfeed  007 \n # x\nstep\t01\t=  02\n\nsettle\n",
        "feed 7;step 1 = 2;settle;",
    ),
    (
        "auto 0 1\nauto 0 0\nauto 1 00000000000000000003",
        "auto 0 1;auto 0 0;auto 1 3;",
    ),
];

#[test]
fn reads_and_writes_scripts(rt: HostRuntime) -> Result<(), Fail> {
    for (line, event) in &LINES {
        assert!(rt; stands_for(rt.alloc(), line, event)?, "at {line:?}");
    }
    for (text, wanted) in &READ {
        assert!(rt; comes_to(rt.alloc(), text, wanted)?, "at {text:?}");
    }
    Ok(())
}

/// How many events the script of a chain has, if it is one.
fn count_in_chain(alloc: Global, text: &[u8]) -> Option<usize> {
    match read_chain(alloc, text) {
        Ok(events) => Some(events.len()),
        Err(_) => None,
    }
}

#[test]
fn reads_scripts_of_chains(rt: HostRuntime) {
    assert!(rt; count_in_chain(rt.alloc(), b"1 settle\n2 settle\n") == Some(2));
    assert!(rt; count_in_chain(rt.alloc(), b"1 settle\n3 settle\n").is_none());
}

/// Texts, and how many events each has or what is wrong with it.
const COUNTS: [Row; 11] = [
    ("auto 1 4000000", "1"),
    ("auto 1 4000000\nsnap", "too many lines"),
    ("snap\nauto 1 3999999", "2"),
    ("auto 1 4000000\nauto 1 0", "2"),
    ("auto 1 4000001", "too many lines"),
    ("auto 1 3000000\nauto 2 1000001\n", "too many lines"),
    ("auto 1 2\nauto 1 18446744073709551615", "too many lines"),
    ("auto 1 4000001\nx", "too many lines"),
    ("x\nauto 1 4000001", "line 1: unknown word"),
    ("auto 1 4000000\nx\nsnap", "line 2: unknown word"),
    ("snap\nauto 1 4000000 5", "line 2: extra word"),
];

/// Whether a text has this count of events, in the words of `counted`.
fn has_count(alloc: Global, text: &str, wanted: &str) -> Result<bool, NoMemory> {
    Ok(counted(alloc, text)?.as_str() == wanted)
}

#[test]
fn counts_events(rt: HostRuntime) -> Result<(), Fail> {
    for (text, count) in &COUNTS {
        let found = has_count(rt.alloc(), text, count)?;
        assert!(rt; found, "at {text:?}");
    }
    Ok(())
}

/// Two words, and the event that they choose where two threads made 5 entries and 1, and 0 outputs and 9.
const CHOSEN: [(u32, u32, Event); 14] = [
    (
        0,
        0,
        Event::Step {
            thread: 0,
            answer: None,
        },
    ),
    (
        15,
        3,
        Event::Step {
            thread: 1,
            answer: None,
        },
    ),
    (16, 0, Event::Feed(1)),
    (18, 9, Event::Feed(1)),
    (
        19,
        0,
        Event::Log {
            thread: 0,
            number: 5,
        },
    ),
    (
        24,
        48,
        Event::Log {
            thread: 0,
            number: 2,
        },
    ),
    (
        21,
        49,
        Event::Log {
            thread: 1,
            number: 1,
        },
    ),
    (
        25,
        0,
        Event::Out {
            thread: 0,
            number: 1,
        },
    ),
    (
        28,
        17,
        Event::Out {
            thread: 1,
            number: 8,
        },
    ),
    (29, 1, Event::Snap),
    (30, 0, Event::Store),
    (31, 0, Event::Store),
    (
        32,
        2,
        Event::Step {
            thread: 0,
            answer: None,
        },
    ),
    (
        0xffff_fff7,
        0xffff_ffff,
        Event::Log {
            thread: 1,
            number: 1,
        },
    ),
];

/// Whether a thread is chosen though it has made nothing, and one of the last four entries of the other.
fn chooses_by_what_was_made() -> bool {
    let step = Event::Step {
        thread: 1,
        answer: None,
    };
    let log = Event::Log {
        thread: 1,
        number: 3,
    };
    auto_event(0, 1, &[0, 0], &[0, 0]) == step && auto_event(19, 33, &[0, 5], &[0, 0]) == log
}

#[test]
fn chooses_events(rt: HostRuntime) {
    for (a, b, event) in &CHOSEN {
        let chosen = auto_event(*a, *b, &[5, 1], &[0, 9]);
        assert!(rt; chosen == *event, "at {a} and {b}");
    }
    assert!(rt; chooses_by_what_was_made());
}
