ghost use Rattle.std.specs.Prelude.{◌≡◌, ◌<◌, ℕ, IfSome, None};
ghost use Rattle.recovery_world.specs.declared.event.Event.TheVariants as event_is;
ghost use Rattle.recovery_world.specs.declared.event.Outcome.TheVariants as outcome_is;
ghost use Rattle.several_events.specs.Ahead.{HasTurns};
ghost use Rattle.several_events.specs.declared.progress.Progress.TheVariants as progress_is;
ghost use Rattle.several_events.specs.Progressing.{IsTurn, after_turn, after_of};

use plain_text::Kind;
use rand_pcg::Pcg32;
use recovery_world::{Event, Outcome};

/// How far an event of several is.
#[derive(Drop)]
pub enum Progress {
    /// The master is to be up.
    Wakes,
    /// It is the turn of this thread. So many packets are still to come in, and a thread has moved in this round or
    /// none has.
    Steps {
        left: u64,
        thread: u32,
        moved: bool,
    },
    /// The entries of the threads arrive, and then the outputs. Of this thread this number arrived.
    Arrives {
        kind: Kind,
        thread: u32,
        arrived: u64,
    },
    /// So many events are still to be chosen, by the next words of this generator.
    Chooses {
        words: Pcg32,
        left: u64,
    },
}

/// Whose turn it is behind that of a thread that made no move, and whether a thread has moved in its round. Behind the
/// last thread a new round begins, if one has moved in this round; else all threads had their turns.
pub fn next_turn(thread: u32, moved: bool, threads: u32) -> (u32, bool)
    requires { thread < threads }
    ensures { (left : ℕ) → progress_is.Steps left result.0 result.1
        ≡ after_turn threads left thread moved outcome_is.Idle }
{
    if thread + 1 < threads || !moved {
        (thread + 1, moved)
    } else {
        (0, false)
    }
}

/// How it goes on behind a step of the thread whose turn it is. A thread that moved has another turn.
fn after_step(left: u64, thread: u32, moved: bool, threads: u32, outcome: &Outcome) -> Progress
    requires { IsTurn threads (progress_is.Steps left thread moved) }
    ensures { result ≡ after_turn threads left thread moved outcome.now }
{
    match outcome {
        Outcome::Idle | Outcome::Waits { .. } => {
            let (thread, moved) = next_turn(thread, moved, threads);
            Progress::Steps {
                left,
                thread,
                moved,
            }
        }
        _ => Progress::Steps {
            left,
            thread,
            moved: true,
        },
    }
}

impl Progress {
    /// The thread of this event, where it is a step that is told nothing, and threads take turns.
    pub fn turn_in(&self, event: Event) -> Option<u64>
        ensures turns { IfSome result (λ _. HasTurns self.now) }
        ensures step { IfSome result (λ thread. event ≡ event_is.Step thread None) }
    {
        match self {
            Progress::Steps { .. } => match event {
                Event::Step { thread, answer } => match answer {
                    None => Some(thread),
                    Some(_) => None,
                },
                _ => None,
            },
            _ => None,
        }
    }

    /// How it goes on behind this event with this outcome.
    pub fn after(self, threads: u32, event: Event, outcome: &Outcome) -> Self
        requires { IsTurn threads self }
        ensures { result ≡ after_of threads self event outcome.now }
    {
        match self {
            Progress::Steps {
                left,
                thread,
                moved,
            } => match event {
                Event::Step { .. } => after_step(left, thread, moved, threads, outcome),
                _ => Progress::Steps {
                    left,
                    thread,
                    moved,
                },
            },
            other => other,
        }
    }
}
