ghost use Rattle.std.specs.Prelude.{◌≡◌, IfOk, OnOk, Err, IfSome, Some, None};
ghost use Rattle.plain_text.specs.declared.limit.Limit.{Limit as LimitKind};
ghost use Rattle.several_events.specs.declared.progress.Progress.TheVariants as progress_is;
ghost use Rattle.system_parts.specs.SystemStanding.{StandsForSome};
ghost use Rattle.system_parts.specs.Performing.{Appends, MovesOn, StopsAt, Releasing, WouldPass};
ghost use Rattle.single_events.specs.Single.{IsSingle};
ghost use Rattle.several_events.specs.Progressing.{IsBegun, IsNext, IsOver, StandsAt, Comes};
ghost use Rattle.several_events.specs.Progressing.{SumsUp};
ghost use Rattle.several_events.specs.Ahead.{Performs};

use crate::choosing::choose_next;
use crate::messages::next_message;
use crate::progress::Progress;
use crate::turns::pass_idle;
use access_log::Outputs;
use box_program::Program;
use event_replies::Stop;
use held_steps::step_held;
use plain_text::Kind;
use rand_pcg::Pcg32;
use recovery_world::{Event, Outcome};
use single_events::perform_single;
use system_parts::Core;

/// The next message arrives. Of this thread this number arrived.
fn choose_arrival<P: Program>(
    core: &Core<P>,
    kind: Kind,
    thread: u32,
    arrived: u64,
) -> Option<(Event, Progress)>
    ensures over { result ≡ None → IsOver (P.meaning core.now.program) core.now
        (progress_is.Arrives kind thread arrived) }
    ensures next { IfSome result (λ next. IsNext (P.meaning core.now.program) core.now
        (progress_is.Arrives kind thread arrived) next.0 next.1) }
{
    let (kind, thread, number) = next_message(core, kind, thread, arrived)?;
    let event = match kind {
        Kind::Log => Event::Log {
            thread: u64::from(thread),
            number,
        },
        Kind::Out => Event::Out {
            thread: u64::from(thread),
            number,
        },
    };
    Some((
        event,
        Progress::Arrives {
            kind,
            thread,
            arrived: number,
        },
    ))
}

/// The thread whose turn it is steps. Behind the last one the next packet comes in, or all that was made arrives.
fn choose_step<P: Program>(
    core: &Core<P>,
    left: u64,
    thread: u32,
    moved: bool,
) -> Option<(Event, Progress)>
    ensures over { result ≡ None → IsOver (P.meaning core.now.program) core.now
        (progress_is.Steps left thread moved) }
    ensures next { IfSome result (λ next. IsNext (P.meaning core.now.program) core.now
        (progress_is.Steps left thread moved) next.0 next.1) }
{
    if thread < core.inputs.threads() {
        let event = Event::Step {
            thread: u64::from(thread),
            answer: None,
        };
        return Some((
            event,
            Progress::Steps {
                left,
                thread,
                moved,
            },
        ));
    }
    if left == 0 {
        return choose_arrival(core, Kind::Log, 0, 0);
    }
    Some((
        Event::Feed(1),
        Progress::Steps {
            left: left - 1,
            thread: 0,
            moved: false,
        },
    ))
}

/// The next of the events that are chosen by words.
fn choose_by_words<P: Program>(core: &Core<P>, words: Pcg32, left: u64) -> Option<(Event, Progress)>
    ensures over { result ≡ None → IsOver (P.meaning core.now.program) core.now
        (progress_is.Chooses words left) }
    ensures next { IfSome result (λ next. IsNext (P.meaning core.now.program) core.now
        (progress_is.Chooses words left) next.0 next.1) }
{
    if left == 0 {
        return None;
    }
    let mut words = words;
    let event = choose_next(core, &mut words);
    Some((
        event,
        Progress::Chooses {
            words,
            left: left - 1,
        },
    ))
}

/// The event that comes next, and how far it goes on from there.
fn choose<P: Program>(core: &Core<P>, at: Progress) -> Option<(Event, Progress)>
    ensures over { result ≡ None → IsOver (P.meaning core.now.program) core.now at }
    ensures next { IfSome result (λ next. IsNext (P.meaning core.now.program) core.now
        at next.0 next.1) }
{
    match at {
        Progress::Wakes => Some((
            Event::Recover,
            Progress::Steps {
                left: core.left.len() as u64,
                thread: 0,
                moved: false,
            },
        )),
        Progress::Steps {
            left,
            thread,
            moved,
        } => choose_step(core, left, thread, moved),
        Progress::Arrives {
            kind,
            thread,
            arrived,
        } => choose_arrival(core, kind, thread, arrived),
        Progress::Chooses { words, left } => choose_by_words(core, words, left),
    }
}

/// The event is performed, behind which the strategy goes on from there. While threads take turns, the entry of a move
/// arrives as soon as it is made.
fn perform_next<P: Program>(
    core: &mut Core<P>,
    further: &Progress,
    event: Event,
    out: &mut Outputs,
) -> Result<Outcome, Stop>
    requires stands { StandsForSome (P.meaning core.old.program) core.old }
    requires single { IsSingle core.old.up event }
    ensures on { IfOk result (λ to. MovesOn (P.meaning core.old.program)
        (Releasing out.old out.new (Performs further.now event to)) core.old core.new) }
    ensures limit { (limit : LimitKind) → result ≡ Err (Stop.Limit limit)
        → StopsAt (P.meaning core.old.program)
        (Releasing out.old out.new (WouldPass event limit)) core.old core.new }
    ensures appends { Appends out.old out.new }
{
    if let Some(thread) = further.turn_in(event) {
        return step_held(core, thread, out);
    }
    let reply = perform_single(core, event, out)?;
    Ok(reply.outcome)
}

/// The events that the strategy chooses are performed, one after another.
fn follow<P: Program>(core: &mut Core<P>, from: Progress, out: &mut Outputs) -> Result<(), Stop>
    requires begun { StandsAt (P.meaning core.old.program) core.old from }
    ensures on { OnOk result (MovesOn (P.meaning core.old.program)
        (Releasing out.old out.new (Comes from None)) core.old core.new) }
    ensures limit { (limit : LimitKind) → result ≡ Err (Stop.Limit limit)
        → StopsAt (P.meaning core.old.program)
        (Releasing out.old out.new (Comes from (Some limit))) core.old core.new }
    ensures appends { Appends out.old out.new }
{
    let mut at = from;
    'events: loop {
        match choose(core, at) {
            None => return Ok(()),
            Some((event, further)) => {
                let outcome = perform_next(core, &further, event, out)?;
                let behind = further.after(core.inputs.threads(), event, &outcome);
                at = pass_idle(core, behind);
            }
        }
    }
}

/// How an event of several begins; nothing of an event that is done by itself.
pub fn begin<P: Program>(core: &Core<P>, event: Event) -> Option<Progress>
    ensures several { IfSome result (λ at.
        IsBegun (P.meaning core.now.program) core.now event at) }
    ensures single { result ≡ None → IsSingle core.now.up event }
{
    match event {
        Event::Settle => Some(Progress::Wakes),
        Event::Flow(n) => {
            if !core.up {
                return None;
            }
            Some(Progress::Steps {
                left: n.min(core.left.len() as u64),
                thread: 0,
                moved: false,
            })
        }
        Event::Auto { seed, n } => Some(Progress::Chooses {
            words: random_words::generator(seed),
            left: n,
        }),
        _ => None,
    }
}

/// An event of several is performed from here on, and summed up.
pub fn perform_several<P: Program>(
    core: &mut Core<P>,
    from: Progress,
    out: &mut Outputs,
) -> Result<Outcome, Stop>
    requires begun { StandsAt (P.meaning core.old.program) core.old from }
    ensures on { IfOk result (λ to. MovesOn (P.meaning core.old.program)
        (Releasing out.old out.new (SumsUp from to)) core.old core.new) }
    ensures limit { (limit : LimitKind) → result ≡ Err (Stop.Limit limit)
        → StopsAt (P.meaning core.old.program)
        (Releasing out.old out.new (Comes from (Some limit))) core.old core.new }
    ensures appends { Appends out.old out.new }
{
    let moves = core.moves;
    let released = core.released.len() as u64;
    follow(core, from, out)?;
    Ok(Outcome::Summary {
        moves: core.moves.saturating_sub(moves),
        released: (core.released.len() as u64).saturating_sub(released),
        epoch: u64::from(core.logger.epoch()),
    })
}
