ghost use Rattle.std.specs.Prelude.{◌≡◌, ℕ, [], ◌∷◌, ◌++◌, Err, List, length, reverse, true};
ghost use Rattle.std.specs.Prelude.{IfSome, IfNone, OnOk, OnErr};
ghost use Rattle.plain_text.specs.declared.limit.Limit.{Limit as LimitKind};
ghost use Rattle.plain_machine.specs.declared.plain_move.PlainMove.{PlainMove as PlainMoveValue};
ghost use Rattle.master_core.specs.Mastered.{Mastered};
ghost use Rattle.recovery_world.specs.World.{Setting, World};
ghost use Rattle.recovery_world.specs.declared.event.Outcome.{Outcome as OutcomeKind};
ghost use Rattle.system_parts.specs.Resting.{RestsFor};
ghost use Rattle.thread_steps.specs.Stepping.{CanNote};
ghost use Rattle.atomic_table.specs.Seated.{TableId};
ghost use Rattle.var_locks.specs.Seats.{Seated};
ghost use Rattle.round_join.specs.declared.noting.Made.{Made as MadeValue};
ghost use Rattle.round_join.specs.Drawing.{AreDrawn};
ghost use Rattle.round_join.specs.Noting.{CanSendAll, events_made, Pending};
ghost use Rattle.round_join.specs.NotedMoves.{NotesAll, NotesMade, StopsBefore, noted_as};
ghost use Rattle.round_join.specs.Racing.{CameTo, HasRaced, Raced, Stopped, StoppedAt};

use box_program::Program;
use event_replies::Stop;
use kept_moves::KeptMove;
use plain_machine::PlainMove;
use plain_text::{Limit, NoMemory};
use recovery_world::Outcome;
use round_order::{Marks, weave};
use std::alloc::Global;
use std::collections::VecDeque;
use std::marker::Model;
use system_rest::Rest;

/// A move of a thread: what it was told, if anything, and what it showed.
#[derive(Drop)]
pub struct Made {
    pub thread: u32,
    pub answer: Option<u64>,
    pub stepped: KeptMove,
}

/// A move that was noted, as the event of a script that it is, and what it came to.
#[derive(Drop)]
pub struct Noted {
    pub thread: u32,
    pub answer: Option<u64>,
    pub outcome: Outcome,
}

/// Why the moves of a round were not all noted.
#[derive(Drop)]
pub enum NoteStop {
    /// This move would pass the limit.
    Limit { limit: Limit, next: PlainMove },
    NoMemory,
}

impl From<NoMemory> for NoteStop {
    ghost use Rattle.std.specs.Prelude.{◌≡◌};
    ghost use Rattle.round_join.specs.declared.noting.NoteStop.TheVariants as stop;

    ghost from_gives = { λ _ r. r ≡ stop.NoMemory };

    fn from(_: NoMemory) -> Self {
        NoteStop::NoMemory
    }
}

/// The moves of one thread, in the order in which it made them. Contracts see them newest first.
#[derive(Drop)]
pub struct Moves {
    items: VecDeque<Made>,
}

impl Model for Moves {
    ghost use Rattle.std.specs.Prelude.{List, reverse};
    ghost use Rattle.round_join.specs.declared.noting.Made.{Made};

    ghost Value = { List Made };

    ghost view = { λ m. reverse m.items.items };
}

impl Moves {
    /// None so far. It takes no memory.
    pub fn new(alloc: Global) -> Self
        ensures { result ≡ [] }
    {
        Moves {
            items: VecDeque::new(alloc),
        }
    }

    /// No moves, in the same room.
    pub fn cleared(mut self) -> Self
        ensures { result ≡ [] }
    {
        self.items.clear();
        self
    }

    /// How many there are.
    pub fn len(&self) -> usize
        ensures { result ≡ length self.now }
    {
        self.items.len()
    }

    /// One more is made.
    pub fn push(&mut self, made: Made) -> Result<(), NoMemory>
        ensures pushed { OnOk result (self.new ≡ made ∷ self.old) }
        ensures same { OnErr result (self.new ≡ self.old) }
    {
        self.items.push_back(made)?;
        Ok(())
    }

    /// Takes the oldest one out.
    fn take_oldest(&mut self) -> Option<Made>
        ensures oldest { IfSome result (λ made. self.old ≡ self.new ++ made ∷ []) }
        ensures none { IfNone result (self.old ≡ []) }
    {
        self.items.pop_front()
    }
}

/// One more move is noted.
fn add(noted: &mut Vec<Noted>, one: Noted) -> Result<(), NoMemory>
    ensures added { OnOk result (noted.new.items ≡ noted.old.items ++ one ∷ []) }
    ensures same { OnErr result (noted.new.items ≡ noted.old.items) }
{
    noted.push(one)?;
    Ok(())
}

/// Notes one move.
fn note_one<P: Program>(
    rest: &mut Rest<P>,
    made: Made,
    noted: &mut Vec<Noted>,
) -> Result<(), NoteStop>
    requires can { CanNote rest.old made.stepped }
    ensures on { OnOk result ((to : OutcomeKind)
        × (noted.new.items ≡ noted.old.items ++ noted_as made to ∷ [])
        × NotesMade (P.meaning rest.old.program) made to rest.old rest.new) }
    ensures same { OnErr result (noted.new.items ≡ noted.old.items) }
    ensures limit { (limit : LimitKind) (next : PlainMoveValue)
        → result ≡ Err (NoteStop.Limit limit next)
        → StopsBefore (P.meaning rest.old.program) made limit next rest.old }
    ensures program { OnOk result (rest.new.program ≡ rest.old.program) }
    ensures epoch { OnOk result (rest.new.sent.epoch ≡ rest.old.sent.epoch) }
    ensures threads { OnOk result (rest.new.sent.threads ≡ rest.old.sent.threads) }
{
    let Made {
        thread,
        answer,
        stepped,
    } = made;
    match rest.note(thread, answer, stepped) {
        Ok(outcome) => {
            add(
                noted,
                Noted {
                    thread,
                    answer,
                    outcome,
                },
            )?;
            Ok(())
        }
        Err(Stop::Limit(limit)) => Err(NoteStop::Limit {
            limit,
            next: PlainMove { thread, answer },
        }),
        Err(Stop::NoMemory) => Err(NoteStop::NoMemory),
    }
}

/// Notes the moves of all threads in these turns, of which the first is the oldest. Each move leaves its list.
fn note_turns<P: Program>(
    rest: &mut Rest<P>,
    turns: &[usize],
    moves: &mut Vec<Moves>,
    noted: &mut Vec<Noted>,
) -> Result<(), NoteStop>
    requires draws { (drawn : List MadeValue) × AreDrawn moves.old.items (reverse turns.now) drawn
        × CanSendAll rest.old.sent.epoch rest.old.sent.threads drawn }
    requires none { noted.old.items ≡ [] }
    ensures on { OnOk result ((s : Setting P.Value) (w new : World P.Value)
        (drawn : List MadeValue)
        → AreDrawn moves.old.items (reverse turns.now) drawn
        → RestsFor (P.meaning rest.old.program) s w rest.old → w.up ≡ true
        → Pending s w drawn new
        → NotesAll (P.meaning rest.old.program) s w drawn new noted.new.items rest.new) }
    ensures limit { (limit : LimitKind) (next : PlainMoveValue)
        → result ≡ Err (NoteStop.Limit limit next)
        → (s : Setting P.Value) (w new : World P.Value) (drawn : List MadeValue)
        → AreDrawn moves.old.items (reverse turns.now) drawn
        → RestsFor (P.meaning rest.old.program) s w rest.old → w.up ≡ true
        → Pending s w drawn new
        → StoppedAt s w (events_made drawn) noted.new.items limit next }
    ensures program { OnOk result (rest.new.program ≡ rest.old.program) }
{
    for turn in turns {
        let Some(made) = moves[*turn].take_oldest() else {
            unreachable!()
        };
        note_one(rest, made, noted)?;
    }
    Ok(())
}

/// The end of a round: the moves of its threads are noted in the woven order, one after another.
///
/// The lists keep their room. After `Limit` those before it were noted. After `NoMemory` the rest is of no use any
/// more.
pub fn note_round<P: Program>(
    alloc: Global,
    rest: &mut Rest<P>,
    marks: &[Marks],
    moves: &mut Vec<Moves>,
    noted: &mut Vec<Noted>,
) -> Result<(), NoteStop>
    requires raced { HasRaced (P.meaning rest.old.program) (P.fits rest.old.program) marks.now
        moves.old.items rest.old }
    requires none { noted.old.items ≡ [] }
    ensures came { OnOk result ((s : Setting P.Value) (w : World P.Value) (p : Mastered P.Value)
        (round : TableId) (seats : List (Seated P.Value)) (q : Mastered P.Value)
        → Raced (P.meaning rest.old.program) (P.fits rest.old.program) s w p round seats q
        marks.entry.now moves.old.items rest.old
        → CameTo (P.meaning rest.old.program) s w seats q moves.old.items rest.old.guide
        noted.new.items rest.new) }
    ensures limit { (limit : LimitKind) (next : PlainMoveValue)
        → result ≡ Err (NoteStop.Limit limit next)
        → (s : Setting P.Value) (w : World P.Value) (p : Mastered P.Value)
        (round : TableId) (seats : List (Seated P.Value)) (q : Mastered P.Value)
        → Raced (P.meaning rest.old.program) (P.fits rest.old.program) s w p round seats q
        marks.entry.now moves.old.items rest.old
        → Stopped s w moves.old.items noted.new.items limit next }
    ensures program { OnOk result (rest.new.program ≡ rest.old.program) }
{
    rest.has_parts();
    let turns = weave(alloc, marks)?;
    note_turns(rest, turns.as_slice(), moves, noted)
}
