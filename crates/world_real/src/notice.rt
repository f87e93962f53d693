ghost use Rattle.std.specs.Prelude.{◌≡◌, ◌≢◌, ◌↔◌, Bool, IfSome, None, false, length};
ghost use Rattle.world_io.specs.Stream.{PutCount};

use crate::pieces::count_report;
use std::io::IsTerminal;
use std::str;
use world_io::{Clock, Put};

/// A second, in microseconds.
const SECOND: u64 = 1_000_000;

/// What is told while a command runs. Nothing that it does changes what the command leaves.
pub trait Notice {
    /// Whether the report stands on standard error.
    ghost on_errors: { Self → Bool };

    /// This many bytes more were written.
    fn wrote(&mut self, count: usize);

    /// This piece of the report was taken.
    fn reported(&mut self, piece: &[u8]);

    /// Prints a piece of the report, where the report stands on standard error; none where it stands on standard
    /// output. A piece that nobody reads counts as taken (`count_report`).
    fn report(&mut self, piece: &[u8]) -> Option<Put>
        ensures stands { result ≡ None ↔ on_errors self.old ≡ false }
        ensures count { IfSome result (λ put. PutCount put (length piece.now)) }
        ensures memory { IfSome result (λ put. put ≢ Put.NoMemory) };
}

/// Nothing is told.
#[derive(Clone, Copy)]
pub struct Silence;

impl Notice for Silence {
    ghost on_errors = { λ _. false };

    fn wrote(&mut self, _count: usize) {}

    fn reported(&mut self, _piece: &[u8]) {}

    fn report(&mut self, _piece: &[u8]) -> Option<Put> {
        None
    }
}

/// A line of progress on standard error: how long the command has run, and how many bytes it has
/// written. It is there only where standard error is a terminal, from the first second on, and is
/// renewed once a second, as bytes are written.
///
/// Where standard output is a file that is written, the report stands on standard error, and no progress is shown.
///
/// The line ends with a carriage return: what is printed next stands in its place.
///
/// Where standard error is a terminal, the events of the report that did nothing are counted, too.
#[derive(Drop)]
pub struct ProgressLine<'a, C: Clock, E: Eprint> {
    clock: &'a C,
    to: &'a E,
    shown: bool,
    reports: bool,
    began: u64,
    due: u64,
    written: u64,
    counts: bool,
    ends: LineEnds,
}

impl<'a, C: Clock, E: Eprint + IsTerminal> ProgressLine<'a, C, E> {
    /// The line of a command that begins now, and whether its report stands on standard error.
    pub fn new(clock: &'a C, to: &'a E, reports: bool) -> Self
        ensures { result.reports ≡ reports }
    {
        let began = clock.now();
        let counts = to.is_terminal();
        ProgressLine {
            clock,
            to,
            shown: !reports && counts,
            reports,
            began,
            due: began.saturating_add(SECOND),
            written: 0,
            counts,
            ends: LineEnds {
                last: [0; 5],
                idle: 0,
            },
        }
    }
}

impl<'a, C: Clock, E: Eprint> ProgressLine<'a, C, E> {
    /// How many events of the report did nothing: `none` or `down` came of them. It is 0 where standard error is no
    /// terminal.
    pub fn idle_events(&self) -> u64 {
        self.ends.idle
    }
}

/// The last bytes of the lines of a report, which comes in pieces.
#[derive(Drop)]
struct LineEnds {
    /// The last bytes of the line so far.
    last: [u8; 5],
    /// How many lines told of an event that did nothing.
    idle: u64,
}

impl LineEnds {
    /// One more byte of the report.
    fn read(&mut self, byte: u8) {
        if byte != b'\n' {
            let [_, second, third, fourth, fifth] = self.last;
            self.last = [second, third, fourth, fifth, byte];
            return;
        }
        if self.last == *b" none" || self.last == *b" down" {
            self.idle = self.idle.saturating_add(1);
        }
        self.last = [0; 5];
    }
}

impl<'a, C: Clock, E: Eprint> Notice for ProgressLine<'a, C, E> {
    ghost on_errors = { λ line. line.reports };

    fn wrote(&mut self, count: usize) {
        self.written = self.written.saturating_add(count as u64);
        if !self.shown {
            return;
        }
        let now = self.clock.now();
        if now < self.due {
            return;
        }
        self.due = now.saturating_add(SECOND);
        let seconds = now.saturating_sub(self.began) / SECOND;
        let bytes = self.written;
        let _ = eprint!(self.to; "ftmb: {seconds} s, {bytes} bytes written\r");
    }

    fn reported(&mut self, piece: &[u8]) {
        if !self.counts {
            return;
        }
        for byte in piece {
            self.ends.read(*byte);
        }
    }

    fn report(&mut self, piece: &[u8]) -> Option<Put> {
        if !self.reports {
            return None;
        }
        let Ok(text) = str::from_utf8(piece) else {
            return Some(Put::Failed);
        };
        let written = match self.to.eprint(text) {
            Ok(()) => Ok(piece.len()),
            Err(error) => Err(error),
        };
        Some(count_report(written, piece.len()))
    }
}
