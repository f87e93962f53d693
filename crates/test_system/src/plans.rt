//! Plans as texts: what is read of them, and how they are written.
use plain_text::{Kind, NoMemory};
use plan_text::{PlanLine, put_plan, put_plan_line, read_plan};
use std::alloc::Global;
use std::test::Fail;

/// Which kind of line it is, and its numbers.
fn parts_of(line: PlanLine) -> (u8, u64, u64) {
    match line {
        PlanLine::Feed(n) => (0, n, 0),
        PlanLine::Limit { thread, moves } => (1, thread, moves),
        PlanLine::Take { thread, frames } => (2, thread, frames),
        PlanLine::Lose {
            kind: Kind::Log,
            thread,
            number,
        } => (3, thread, number),
        PlanLine::Lose {
            kind: Kind::Out,
            thread,
            number,
        } => (4, thread, number),
        PlanLine::Round => (5, 0, 0),
        PlanLine::Snap => (6, 0, 0),
        PlanLine::Store => (7, 0, 0),
        PlanLine::Crash => (8, 0, 0),
        PlanLine::Recover => (9, 0, 0),
        PlanLine::Show(var) => (10, var, 0),
        PlanLine::Settle => (11, 0, 0),
    }
}

/// Whether a text is read as this line alone.
fn is_read_as(alloc: Global, text: &str, line: PlanLine) -> bool {
    match read_plan(alloc, text.as_bytes()) {
        Ok(lines) => match lines.as_slice() {
            [only] => parts_of(*only) == parts_of(line),
            _ => false,
        },
        Err(_) => false,
    }
}

/// Whether a text is read as this line alone, and the line is written as this text.
fn stands_for(alloc: Global, text: &str, line: PlanLine) -> Result<bool, NoMemory> {
    Ok(put_plan_line(alloc, &line)?.as_str() == text && is_read_as(alloc, text, line))
}

/// Whether the plan that a text is read as is written as this.
fn is_written_as(alloc: Global, text: &str, wanted: &str) -> Result<bool, NoMemory> {
    match read_plan(alloc, text.as_bytes()) {
        Ok(lines) => Ok(put_plan(alloc, lines.as_slice())?.as_slice() == wanted.as_bytes()),
        Err(_) => Ok(false),
    }
}

/// Texts, and the line for which each stands.
const LINES: [(&str, PlanLine); 15] = [
    ("feed 0", PlanLine::Feed(0)),
    ("feed 18446744073709551615", PlanLine::Feed(u64::MAX)),
    (
        "limit 1 20",
        PlanLine::Limit {
            thread: 1,
            moves: 20,
        },
    ),
    (
        "limit 99 0",
        PlanLine::Limit {
            thread: 99,
            moves: 0,
        },
    ),
    (
        "take 3 4",
        PlanLine::Take {
            thread: 3,
            frames: 4,
        },
    ),
    (
        "lose log 2 5",
        PlanLine::Lose {
            kind: Kind::Log,
            thread: 2,
            number: 5,
        },
    ),
    (
        "lose out 0 0",
        PlanLine::Lose {
            kind: Kind::Out,
            thread: 0,
            number: 0,
        },
    ),
    (
        "lose out 7 18446744073709551615",
        PlanLine::Lose {
            kind: Kind::Out,
            thread: 7,
            number: u64::MAX,
        },
    ),
    ("round", PlanLine::Round),
    ("snap", PlanLine::Snap),
    ("store", PlanLine::Store),
    ("crash", PlanLine::Crash),
    ("recover", PlanLine::Recover),
    ("show 18446744073709551615", PlanLine::Show(u64::MAX)),
    ("settle", PlanLine::Settle),
];

/// A text, and what is written of its plan, or its first fault.
type Row = (&'static str, &'static str);

/// Plans, and how they are written.
const READ: [Row; 5] = [
    ("", ""),
    ("# nothing\n\n \t\r\n", ""),
    ("settle", "settle\n"),
    ("snap\r\nstore\r\n", "snap\nstore\n"),
    (
        "#1\n\n\tfeed  007 \n # x\nlimit\t01  02\nlose  log\t3 00\n\nround\ntake 0 18446744073709551615",
        "feed 7\nlimit 1 2\nlose log 3 0\nround\ntake 0 18446744073709551615\n",
    ),
];

#[test]
fn reads_and_writes_plans(rt: HostRuntime) -> Result<(), Fail> {
    for (text, line) in &LINES {
        assert!(rt; stands_for(rt.alloc(), text, *line)?, "at {text:?}");
    }
    for (text, wanted) in &READ {
        assert!(rt; is_written_as(rt.alloc(), text, wanted)?, "at {text:?}");
    }
    Ok(())
}
