ghost use Rattle.std.specs.Prelude.{◌≡◌, IfOk, List, drop, false};
ghost use Rattle.recovery_laws.specs.Sound.{Sound};
ghost use Rattle.recovery_world.specs.Files.{moves_made, reply_line, sent_names};
ghost use Rattle.recovery_world.specs.World.{Sent, Setting, World};
ghost use Rattle.recovery_core.specs.Systems.{SystemStands};
ghost use Rattle.made_moves.specs.Made.{made_in};
ghost use Rattle.run_drawing.specs.Noted.{moves_by, note_of};
ghost use Rattle.noted_runs.specs.Noting.{AreInputs, made_at, threads_of};

use box_program::Program;
use input_logger::InputLog;
use made_moves::{Made, MadeMoves, made_moves};
use plain_machine::Schedule;
use plain_text::{Bytes, NoMemory};
use recovery_core::{Reply, System, put_line};
use recovery_world::{Event, Outcome};
use run_drawing::{Movers, Note};
use std::alloc::Global;

/// The most moves of a master that are noted.
const MOST_NOTED: usize = 400;

/// How many moves an event made that came to this.
fn count_moves(outcome: &Outcome) -> u64
    ensures { result ≡ moves_by outcome.now }
{
    match outcome {
        Outcome::Take(_) | Outcome::Touched { .. } | Outcome::Looked { .. } => 1,
        Outcome::ClockTold { .. } | Outcome::Drawn { .. } => 1,
        Outcome::Emitted(_) | Outcome::Ended(_) => 1,
        Outcome::Summary { moves, .. } => *moves,
        _ => 0,
    }
}

/// What a reply line is, as bytes.
fn line_of(alloc: Global, event: &Event, reply: &Reply) -> Result<Bytes, NoMemory>
    ensures { IfOk result (λ line. (freed : List Sent) → reply.now.released ≡ sent_names freed
        → line ≡ reply_line event.now reply.now.outcome freed) }
{
    let line = put_line(alloc, event, reply)?;
    Bytes::of(alloc, line.as_str().as_bytes())
}

/// The moves behind the first of them.
fn behind(alloc: Global, made: &[Made], first: usize) -> Result<MadeMoves, NoMemory>
    ensures { IfOk result (λ rest. rest ≡ drop first made.now) }
{
    let from = first.min(made.len());
    let mut rest = Vec::new(alloc);
    rest.extend_from_slice(&made[from..])?;
    Ok(MadeMoves::from_vec(rest))
}

/// What the moves of a master did.
fn made_all<P: Program>(
    alloc: Global,
    program: &P,
    inputs: &InputLog,
    moves: &Schedule,
) -> Result<MadeMoves, NoMemory>
    ensures { IfOk result (λ made. (s : Setting P.Value) (w : World P.Value)
        → AreInputs (P.meaning program.now) inputs.now s → Sound s w
        → moves.now ≡ moves_made w.past → made ≡ made_in w.past) }
{
    made_moves(alloc, program, inputs, moves)
}

/// What the moves of a master behind the first of them did; nothing where there are too many to be drawn.
fn made_behind<P: Program>(
    alloc: Global,
    program: &P,
    inputs: &InputLog,
    moves: &Schedule,
    kept: usize,
) -> Result<MadeMoves, NoMemory>
    ensures { IfOk result (λ made. (s : Setting P.Value) (w : World P.Value)
        → AreInputs (P.meaning program.now) inputs.now s → Sound s w
        → moves.now ≡ moves_made w.past → made ≡ made_at kept w) }
{
    let many = moves.len();
    if many > MOST_NOTED || kept >= many {
        return Ok(MadeMoves::new(alloc));
    }
    let made = made_all(alloc, program, inputs, moves)?;
    behind(alloc, made.as_slice(), kept)
}

/// Who made the moves behind the first of them.
fn movers_of(alloc: Global, moves: &Schedule, first: usize) -> Result<Movers, NoMemory>
    ensures { IfOk result (λ movers. movers ≡ threads_of (drop first moves.now)) }
{
    let from = first.min(moves.len());
    let mut movers = Movers::new(alloc);
    for index in from..moves.len() {
        movers.push(moves.at(index).thread)?;
    }
    Ok(movers)
}

/// What is noted of an event that a system performed with this reply. All packets of the capture are the inputs.
pub fn note_event<P: Program>(
    alloc: Global,
    program: &P,
    inputs: &InputLog,
    system: &System<P>,
    event: &Event,
    reply: Reply,
) -> Result<Note, NoMemory>
    requires { system.now.stopped ≡ false }
    ensures { IfOk result (λ note. (s : Setting P.Value) (w : World P.Value) (freed : List Sent)
        → AreInputs (P.meaning program.now) inputs.now s
        → SystemStands (P.meaning system.now.parts.program) s w system.now
        → reply.released ≡ sent_names freed
        → note ≡ note_of event.now reply.outcome freed w) }
{
    let line = line_of(alloc, event, &reply)?;
    let moves = system.moves();
    let many = moves.len() as u64;
    let kept = many.saturating_sub(count_moves(&reply.outcome));
    let made = made_behind(alloc, program, inputs, moves, kept as usize)?;
    let movers = movers_of(alloc, moves, kept as usize)?;
    let Reply {
        outcome,
        released: _,
    } = reply;
    Ok(Note {
        event: *event,
        outcome,
        line,
        kept,
        made,
        movers,
        moves: many,
        fed: inputs.fed().saturating_sub(system.left()),
        released: system.released().len() as u64,
        waiting: system.waiting(),
        up: system.up(),
        epoch: system.epoch(),
    })
}
