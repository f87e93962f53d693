ghost use Rattle.std.specs.Prelude.{◌≡◌, ◌<◌, ◌≤◌, ◌+◌, ℕ, List, IfOk, OnOk, OnErr, Some, Err};
ghost use Rattle.std.specs.Prelude.{true};
ghost use Rattle.std.specs.Option.{unwrap_or};
ghost use Rattle.drawn_words.specs.Drawn.{drawn_after};
ghost use Rattle.plain_text.specs.declared.limit.Limit.{Limit as LimitKind};
ghost use Rattle.plain_text.specs.declared.limit.TheConstants.{MOST_CAPTURED};
ghost use Rattle.plain_machine.specs.History.{Step, thread_after};
ghost use Rattle.master_core.specs.MasterStanding.{Stands};
ghost use Rattle.master_core.specs.Stepping.{told_in, wanted};
ghost use Rattle.recovery_world.specs.declared.event.Event.TheVariants as event_is;
ghost use Rattle.recovery_world.specs.World.{Setting, World};
ghost use Rattle.recovery_world.specs.Events.{TellsHand, entry_outcome as outcome_is};
ghost use Rattle.recovery_world.specs.Limits.{limit_passed as passed};
ghost use Rattle.recovery_laws.specs.Sound.{Sound};
ghost use Rattle.system_parts.specs.SystemStanding.{HasGuide, StandsFor, StandsForSome};
ghost use Rattle.thread_steps.specs.Following.{HasTurnBy, or_given};
ghost use Rattle.system_parts.specs.FromReplayGuide.{recorded};
ghost use Rattle.access_log.specs.Held.{lane, entry_at};
ghost use Rattle.system_parts.specs.Performing.{MovesOn, StopsAt, ComesTo, WouldPass};
ghost use Rattle.kept_moves.specs.Keeping.{IsFor, shown};
ghost use Rattle.thread_steps.specs.Stepping.{CanNote, Notes, NotesMove, MakesNext};

use access_log::{Turn, What};
use box_program::Program;
use drawn_words::{DrawnWords, draw};
use event_replies::Stop;
use kept_moves::Form;
use master_core::{Stepped, Wants};
use plain_machine::PlainMove;
use plain_text::{Limit, MOST_MOVES, MOST_OUTPUT_BYTES};
use recovery_world::Outcome;
use run_end::input_of;
use std::boxed::Box;
use system_parts::{Core, Guide};

/// The outcome of a logged move.
pub fn entry_outcome(number: u64, what: What) -> Outcome
    ensures { result ≡ outcome_is number what }
{
    match what {
        What::Access { var, place } => Outcome::Touched {
            entry: number,
            var: u64::from(var),
            place,
        },
        What::Read { var, after } => Outcome::Looked {
            entry: number,
            var: u64::from(var),
            after,
        },
        What::Clock(value) => Outcome::ClockTold {
            entry: number,
            value,
        },
        What::Draw(value) => Outcome::Drawn {
            entry: number,
            value,
        },
    }
}

/// The limit that these numbers of moves and of bytes pass, that of the moves where they pass both.
fn limit_passed(moves: u64, bytes: u64) -> Option<Limit>
    ensures { result ≡ passed moves bytes }
{
    if moves > u64::from(MOST_MOVES) {
        return Some(Limit::Moves);
    }
    if bytes > u64::from(MOST_OUTPUT_BYTES) {
        return Some(Limit::OutputBytes);
    }
    None
}

/// Whether the thread may make its next move now, where it wants a variable.
fn turn_of<P: Program>(core: &Core<P>, thread: u32, wants: Wants) -> Turn
    requires stands { StandsForSome (P.meaning core.now.program) core.now }
    requires thread_in { thread < core.now.inputs.threads }
    requires wanted { (threads : ℕ) (steps : List (Step P.Value))
        → Stands (P.meaning core.now.program) threads steps core.now.master
        → wants ≡ wanted (P.meaning core.now.program) steps thread }
    ensures { (s : Setting P.Value) (w : World P.Value)
        → StandsFor (P.meaning core.now.program) s w core.now
        → HasTurnBy s w thread result }
{
    match wants {
        Wants::Touch {
            number,
            var,
            places,
        } => {
            let readers = core.master.readers(var);
            core.guide.turn(thread, number, var, false, places, readers)
        }
        Wants::Read {
            number,
            var,
            places,
        } => {
            let readers = core.master.readers(var);
            core.guide.turn(thread, number, var, true, places, readers)
        }
        _ => Turn::Free,
    }
}

/// The recorded answer of an entry, else the given one.
fn recorded_or(guide: &Guide, thread: u32, number: u64, given: Option<u64>) -> Option<u64>
    ensures { result ≡ or_given (recorded (entry_at (lane guide.now thread) number)) given }
{
    match guide.answer(thread, number) {
        Some(recorded) => Some(recorded),
        None => given,
    }
}

/// What the thread's next move is told, if it asks: what is recorded, else the given answer, else the time or the next
/// random word.
fn told<P: Program>(
    wants: Wants,
    guide: &Guide,
    words: &mut DrawnWords,
    clock: u64,
    thread: u32,
    given: Option<u64>,
) -> Option<u64>
    ensures tells { (s : Setting P.Value) (w : World P.Value)
        → wants ≡ wanted s.meaning w.past thread → Sound s w → HasGuide w.followed w.past guide.now
        → w.clock ≡ clock → words.old ≡ drawn_after s.seed w.drawn
        → (drawn : ℕ) × TellsHand s w thread given result drawn (thread_after w.past thread).hand
        × (words.new ≡ drawn_after s.seed drawn) }
    ensures asked { (s : Setting P.Value) (w : World P.Value)
        → wants ≡ wanted s.meaning w.past thread
        → told_in s.meaning (thread_after w.past thread).hand (unwrap_or result 0) ≡ result }
{
    match wants {
        Wants::Clock(number) => Some(recorded_or(guide, thread, number, given).unwrap_or(clock)),
        Wants::Draw(number) => match recorded_or(guide, thread, number, given) {
            Some(answer) => Some(answer),
            None => Some(u64::from(draw(words))),
        },
        _ => None,
    }
}

/// Takes note of a move that the master made, by which it sent out this number of bytes.
pub fn note_move<P: Program>(
    core: &mut Core<P>,
    thread: u32,
    answer: Option<u64>,
    bytes: u64,
) -> Result<(), Stop>
    requires { bytes ≤ MOST_CAPTURED }
    ensures noted { OnOk result (NotesMove thread answer bytes core.old core.new) }
    ensures limit { (limit : LimitKind) → result ≡ Err (Stop.Limit limit)
        → passed (core.old.moves + 1) (core.old.bytes + bytes) ≡ Some limit }
    ensures same { OnErr result (core.new ≡ core.old) }
{
    let moves = core.moves + 1;
    let bytes = core.bytes + bytes;
    if let Some(limit) = limit_passed(moves, bytes) {
        return Err(Stop::Limit(limit));
    }
    core.schedule.push(PlainMove { thread, answer })?;
    core.moves = moves;
    core.bytes = bytes;
    Ok(())
}

/// Takes note of what the master answered of a move, with what the thread was told, and sends what it logged or sent
/// out on the links. Of `Idle`, `NotTurn` and `NoMemory` nothing is noted.
pub fn note<P: Program>(
    core: &mut Core<P>,
    thread: u32,
    answer: Option<u64>,
    stepped: Stepped,
) -> Result<Outcome, Stop>
    requires can { CanNote core.old stepped }
    ensures { Notes thread answer stepped core.old result core.new }
{
    match stepped {
        Stepped::Took(k) => {
            note_move(core, thread, answer, 0)?;
            Ok(Outcome::Take(k))
        }
        Stepped::Did(entry) => {
            note_move(core, thread, answer, 0)?;
            core.sent.send_entry(&entry)?;
            Ok(entry_outcome(entry.number, entry.what))
        }
        Stepped::Emitted(output) => {
            let number = output.number;
            note_move(core, thread, answer, output.packet.bytes.len() as u64)?;
            core.sent.send_output(output)?;
            Ok(Outcome::Emitted(number))
        }
        Stepped::Ended(k) => {
            note_move(core, thread, answer, 0)?;
            Ok(Outcome::Ended(k))
        }
        Stepped::Idle => Ok(Outcome::Idle),
        Stepped::NotTurn { thread, number } => Ok(Outcome::Waits {
            thread: u64::from(thread),
            number,
        }),
        Stepped::NoMemory => Err(Stop::NoMemory),
    }
}

/// Takes note of a move that was kept: of what its call showed. What it logged or sent out is sent as the frame in
/// which it is kept.
pub fn note_kept<P: Program>(
    core: &mut Core<P>,
    thread: u32,
    answer: Option<u64>,
    form: Form,
) -> Result<Outcome, Stop>
    requires frame { IsFor core.old.sent.epoch core.old.sent.threads form }
    requires can { CanNote core.old (shown form) }
    ensures { Notes thread answer (shown form) core.old result core.new }
{
    match form {
        Form::Took(k) => {
            note_move(core, thread, answer, 0)?;
            Ok(Outcome::Take(k))
        }
        Form::Logged {
            thread: by,
            number,
            what,
            frame,
        } => {
            note_move(core, thread, answer, 0)?;
            core.sent.send_entry_frame(by, number, frame)?;
            Ok(entry_outcome(number, what))
        }
        Form::Sent {
            thread: by,
            number,
            captured,
            frame,
        } => {
            note_move(core, thread, answer, captured)?;
            core.sent.send_output_frame(by, number, frame)?;
            Ok(Outcome::Emitted(number))
        }
        Form::Ended(k) => {
            note_move(core, thread, answer, 0)?;
            Ok(Outcome::Ended(k))
        }
        Form::Whole(stepped) => note(core, thread, answer, Box::into_inner(stepped)),
    }
}

/// The master makes the next move of a thread that is there; a clock or a draw is told the given answer, if there is
/// one. The move is not noted yet: what the thread was told, and what the master answers.
pub fn make_move<P: Program>(
    core: &mut Core<P>,
    thread: u32,
    given: Option<u64>,
) -> (Option<u64>, Stepped)
    requires stands { StandsForSome (P.meaning core.old.program) core.old }
    requires up { core.old.up ≡ true }
    requires thread_in { thread < core.old.inputs.threads }
    ensures can { CanNote core.new result.1 }
    ensures made { MakesNext (P.meaning core.old.program) thread given result.0 result.1
        core.old core.new }
{
    let next = core.master.next_move(&core.program, thread);
    let wants = core.master.wants_by(&core.program, thread, next);
    let turn = turn_of(core, thread, wants);
    let answer = told::<P>(
        wants,
        &core.guide,
        &mut core.generator,
        core.clock,
        thread,
        given,
    );
    let input = input_of(&core.inputs, &core.master, thread);
    let stepped = core.master.make(
        core.alloc,
        &core.program,
        thread,
        next,
        turn,
        answer.unwrap_or(0),
        input,
    );
    (answer, stepped)
}

/// The master makes the next move of a thread; a clock or a draw is told the given answer, if there is one.
pub fn step<P: Program>(
    core: &mut Core<P>,
    thread: u64,
    given: Option<u64>,
) -> Result<Outcome, Stop>
    requires stands { StandsForSome (P.meaning core.old.program) core.old }
    ensures on { IfOk result (λ to.
        MovesOn (P.meaning core.old.program) (ComesTo (event_is.Step thread given) to)
        core.old core.new) }
    ensures limit { (limit : LimitKind) → result ≡ Err (Stop.Limit limit)
        → StopsAt (P.meaning core.old.program) (WouldPass (event_is.Step thread given) limit)
        core.old core.new }
{
    if thread >= u64::from(core.inputs.threads()) {
        return Ok(Outcome::Nothing);
    }
    if !core.up {
        return Ok(Outcome::Down);
    }
    let thread = thread as u32;
    let (answer, stepped) = make_move(core, thread, given);
    note(core, thread, answer, stepped)
}
