//! A seat's touch or read of the variable in hand.
ghost use Rattle.std.specs.Prelude.{◌≡◌, ℕ, ◌+◌, ◌<◌, ◌≤◌, ◌^◌, [], ◌∷◌, IfOk, IfSome, IfNone};
ghost use Rattle.std.specs.Prelude.{OnErr, true, false, length};
ghost use Rattle.master_core.specs.Mastered.{moves_made};
ghost use Rattle.master_core.specs.declared.parts.VarPart as var_of;
ghost use Rattle.replay_guide.specs.Turns.{WaitsFor};
ghost use Rattle.var_locks.specs.Notes.{LetsPass};
ghost use Rattle.var_locks.specs.Rounds.{AreVarsOf, CanMiss};
ghost use Rattle.var_locks.specs.Views.{empty_hand, missed_view};
ghost use Rattle.var_locks.specs.TouchedParts.{IsWanted, HasSlot, Works, WorksBy, next_word};
ghost use Rattle.var_locks.specs.TouchedParts.{entry_waited, HasThread, IsTaken, MayWork, MustWait};
ghost use Rattle.var_locks.specs.TouchedParts.{MadeBy, MadeNone, Comes, ComesOf, MayStillCome};
ghost use Rattle.var_locks.specs.Told.{WasGoingOf};

use crate::keeping::copied;
use crate::lines::thread_word;
use crate::steps::{Lock, Made, Token, bring_home, give_back, misses, pause, take_up};
use crate::vars::Vars;
use crate::view::{MissedEntry, Round};
use access_log::{StampedEntry, Turn};
use box_program::Program;
use master_core::{ThreadPart, Trace, VarPart, moves};
use plain_machine::Local;
use plain_text::NoMemory;
use replay_guide::Guide;
use std::alloc::Global;
use std::sync::Wait;
use thread_clock::Stamp;

/// Where a worker stands in the course of a round: a test may hold it there.
pub trait Gate {
    /// The thread has the variable in hand, and is about to touch it or to read it.
    fn pass(&self, thread: u32, var: u32);
}

/// A gate that holds nobody.
pub struct OpenGate;

impl Gate for OpenGate {
    fn pass(&self, thread: u32, var: u32) {
        let _ = thread;
        let _ = var;
    }
}

/// The touch or the read that a thread wants: of which variable, and where its program stands.
#[derive(Clone, Copy)]
pub(crate) struct Access {
    pub(crate) thread: u32,
    pub(crate) var: u32,
    pub(crate) read: bool,
    pub(crate) place: Local,
}

/// What surrounds a touch or a read, and stays the same while it is tried.
#[derive(Drop)]
pub(crate) struct Setting<'a, P, G> {
    pub(crate) alloc: Global,
    pub(crate) program: &'a P,
    pub(crate) guide: &'a Guide,
    pub(crate) gate: &'a G,
}

/// What came of a touch or a read.
#[derive(Debug, Drop)]
pub enum Touched {
    /// It was made, as this entry.
    Did(StampedEntry),
    /// None was made: the guide says to wait for this entry, and its thread ended the round without it.
    Blocked { thread: u32, number: u64 },
    /// None was made.
    NoMemory,
}

/// The join of the stamps of the reads of the variable in hand after its last touch.
fn readers_of<P: Program, J: Round>(
    shared: &Lock<P, J>,
    token: &mut Token<P::Value>,
    var: usize,
) -> Stamp
    requires table { token.old.table_id ≡ shared.now.table_id }
    requires slot { (x : var_of.VarPart P.Value) × (token.old.me.1 ≡ (var, x) ∷ []) }
    ensures same { (token.new.table_id ≡ token.old.table_id) × (token.new.id ≡ token.old.id) }
    ensures stays { token.new.me ≡ token.old.me }
    ensures readers { (x : var_of.VarPart P.Value) → token.old.me.1 ≡ (var, x) ∷ []
        → result ≡ x.readers }
{
    let slot = token.slot_mut(shared, var);
    slot.part.readers
}

/// Touches this variable in place, or reads it.
fn work_in<P: Program>(
    alloc: Global,
    program: &P,
    part: &mut ThreadPart,
    access: Access,
    slot: &mut VarPart<P::Value>,
) -> Result<StampedEntry, NoMemory>
    requires room { moves_made part.old < 2 ^ 56 }
    requires wanted { IsWanted (P.meaning program.now) part.old access }
    requires few { slot.old.places ≤ 2 ^ 60 }
    requires fits { P.fits program.now access.var slot.old.value }
    ensures worked { IfOk result (λ entry. WorksBy (P.meaning program.now)
        access.thread access.var access.read access.place
        part.old part.new entry slot.old slot.new) }
    ensures left { OnErr result ((part.new ≡ part.old) × (slot.new ≡ slot.old)) }
{
    let Access {
        thread,
        var,
        read,
        place,
    } = access;
    if read {
        return moves::look(program, thread, part, place, var, slot);
    }
    moves::touch(alloc, program, thread, part, place, var, slot)
}

/// Touches the variable in hand in place, or reads it.
fn work<P: Program, J: Round>(
    alloc: Global,
    program: &P,
    shared: &Lock<P, J>,
    token: &mut Token<P::Value>,
    part: &mut ThreadPart,
    access: Access,
) -> Result<StampedEntry, NoMemory>
    requires table { token.old.table_id ≡ shared.now.table_id }
    requires room { moves_made part.old < 2 ^ 56 }
    requires wanted { IsWanted (P.meaning program.now) part.old access }
    requires slot { HasSlot (P.fits program.now) access.var token.old.me }
    ensures same { (token.new.table_id ≡ token.old.table_id) × (token.new.id ≡ token.old.id) }
    ensures view { token.new.me.0 ≡ token.old.me.0 }
    ensures worked { IfOk result (λ entry. (x : var_of.VarPart P.Value)
        → token.old.me.1 ≡ (access.var, x) ∷ []
        → Works (P.meaning program.now) access part.old part.new entry x token.new.me.1) }
    ensures left { OnErr result ((part.new ≡ part.old) × (token.new.me ≡ token.old.me)) }
{
    let slot = token.slot_mut(shared, access.var as usize);
    work_in(alloc, program, part, access, &mut slot.part)
}

/// The entry for which this turn says to wait.
fn entry_of(turn: Turn) -> Option<(u32, u64)>
    ensures { result ≡ entry_waited turn }
{
    match turn {
        Turn::Wait { thread, number } => Some((thread, number)),
        Turn::Follow | Turn::Free => None,
    }
}

/// The entry for which the guide says to wait, where the variable was touched so often and this is the join of its
/// reads since.
fn waits_for(
    guide: &Guide,
    number: u64,
    access: Access,
    places: u64,
    readers: &Stamp,
) -> Option<(u32, u64)>
    ensures waits { IfSome result (λ e. WaitsFor guide.now access.thread number
        access.var access.read places readers.now e.0 e.1) }
    ensures goes { IfNone result (LetsPass guide.now access.thread number
        access.var access.read places readers.now) }
{
    let Access {
        thread,
        var,
        read,
        ..
    } = access;
    entry_of(guide.turn(thread, number, var, read, places, readers))
}

/// The word that is stored when the variable comes home.
fn word_after(word: u64, read: bool) -> u64
    requires { word + 2 < 2 ^ 64 }
    ensures { result ≡ next_word word read }
{
    if read { word } else { word + 2 }
}

impl<P: Program, J: Round> Vars<P, J> {
    /// Touches the variable in hand, or reads it, and brings it home.
    fn make_on<G: Gate>(
        &self,
        setting: &Setting<'_, P, G>,
        token: &mut Token<P::Value>,
        part: &mut ThreadPart,
        access: Access,
        word: u64,
    ) -> Result<StampedEntry, NoMemory>
        requires of { AreVarsOf P.meaning P.row.coded P.Value.row.coded
            setting.now.program.now self.now }
        requires table { token.old.table_id ≡ self.now.round }
        requires room { moves_made part.old < 2 ^ 56 }
        requires wanted { IsWanted (P.meaning setting.now.program.now) part.old access }
        requires taken { MayWork P.fits P.row.coded J.program J.guide access word part.old
            token.old.me }
        ensures same { (token.new.table_id ≡ token.old.table_id)
            × (token.new.id ≡ token.old.id) }
        ensures made { IfOk result (λ e. MadeBy (P.meaning setting.now.program.now) J.guide access
            part.old part.new token.old.me token.new.me e) }
        ensures left { OnErr result (MadeNone token.old.me token.new.me part.old part.new) }
    {
        let shared = &self.table.shared;
        let program = setting.program;
        let var = access.var;
        let before = *part;
        let worked = work::<P, J>(setting.alloc, program, shared, token, part, access);
        let Ok(entry) = worked else {
            give_back::<P, J>(program, shared, token, var, word);
            return Err(NoMemory);
        };
        let after = *part;
        let trace = Trace::Did(copied(&entry));
        let home = word_after(word, access.read);
        let made = Made {
            before: &before,
            after: &after,
            trace: &trace,
        };
        bring_home::<P, J>(program, shared, token, var, home, made);
        Ok(entry)
    }

    /// Whether the thread of an entry ended, for which the guide says to wait at the variable in hand. If so, the entry
    /// is missing; if not, the thread had not ended at one moment of the call.
    fn looks_missing(&self, program: &P, token: &mut Token<P::Value>, missed: MissedEntry) -> bool
        requires of { AreVarsOf P.meaning P.row.coded P.Value.row.coded program.now self.now }
        requires table { token.old.table_id ≡ self.now.round }
        requires waits { CanMiss (P.meaning program.now) J.guide token.old.me.0 missed }
        ensures same { (token.new.table_id ≡ token.old.table_id)
            × (token.new.id ≡ token.old.id) }
        ensures missing { result ≡ true
            → token.new.me ≡ (missed_view token.old.me.0 missed, token.old.me.1) }
        ensures going { result ≡ false → token.new.me ≡ token.old.me }
        ensures at_work { result ≡ false → missed.thread < length J.threads
            → WasGoingOf P.meaning P.fits P.row.coded P.Value.row.coded
            J.program J.opening J.guide token.old.me.0 missed.thread }
    {
        if missed.thread as usize >= self.threads {
            return false;
        }
        let word = thread_word(self.vars, missed.thread);
        misses::<P, J>(program, &self.table.shared, token, word, missed)
    }

    /// Gives the variable in hand back, at which the guide says to wait for an entry. Whether its thread ended the
    /// round without it; if not, it had not ended at one moment of the call.
    fn wait_on(
        &self,
        program: &P,
        token: &mut Token<P::Value>,
        word: u64,
        missed: MissedEntry,
    ) -> bool
        requires of { AreVarsOf P.meaning P.row.coded P.Value.row.coded program.now self.now }
        requires table { token.old.table_id ≡ self.now.round }
        requires var_in { missed.var < (P.meaning program.now).vars }
        requires waits { MustWait J.guide word missed token.old.me }
        ensures same { (token.new.table_id ≡ token.old.table_id)
            × (token.new.id ≡ token.old.id) }
        ensures missing { result ≡ true
            → token.new.me ≡ (empty_hand (missed_view token.old.me.0 missed), []) }
        ensures going { result ≡ false → token.new.me ≡ (empty_hand token.old.me.0, []) }
        ensures at_work { result ≡ false → missed.thread < length J.threads
            → WasGoingOf P.meaning P.fits P.row.coded P.Value.row.coded
            J.program J.opening J.guide token.old.me.0 missed.thread }
    {
        let missing = self.looks_missing(program, token, missed);
        give_back::<P, J>(program, &self.table.shared, token, missed.var, word);
        missing
    }

    /// Makes the touch or the read that is next of the variable in hand.
    fn go_on<G: Gate>(
        &self,
        setting: &Setting<'_, P, G>,
        token: &mut Token<P::Value>,
        part: &mut ThreadPart,
        access: Access,
        word: u64,
    ) -> Touched
        requires of { AreVarsOf P.meaning P.row.coded P.Value.row.coded
            setting.now.program.now self.now }
        requires table { token.old.table_id ≡ self.now.round }
        requires room { moves_made part.old < 2 ^ 56 }
        requires wanted { IsWanted (P.meaning setting.now.program.now) part.old access }
        requires taken { MayWork P.fits P.row.coded J.program J.guide access word part.old
            token.old.me }
        ensures same { (token.new.table_id ≡ token.old.table_id)
            × (token.new.id ≡ token.old.id) }
        ensures comes { Comes (P.meaning setting.now.program.now) J.guide access
            part.old part.new token.old.me token.new.me result }
    {
        setting.gate.pass(access.thread, access.var);
        match self.make_on(setting, token, part, access, word) {
            Ok(entry) => Touched::Did(entry),
            Err(NoMemory) => Touched::NoMemory,
        }
    }

    /// Makes the touch or the read that is next of the variable in hand, if the guide does not say to wait there. None
    /// comes only where the thread for whose entry it waits had not ended at one moment of the call.
    fn try_on<G: Gate>(
        &self,
        setting: &Setting<'_, P, G>,
        token: &mut Token<P::Value>,
        part: &mut ThreadPart,
        access: Access,
        word: u64,
    ) -> Option<Touched>
        requires of { AreVarsOf P.meaning P.row.coded P.Value.row.coded
            setting.now.program.now self.now }
        requires guide { setting.now.guide.now ≡ J.guide }
        requires table { token.old.table_id ≡ self.now.round }
        requires room { moves_made part.old < 2 ^ 56 }
        requires wanted { IsWanted (P.meaning setting.now.program.now) part.old access }
        requires taken { IsTaken P.fits P.row.coded J.program access word part.old token.old.me }
        ensures same { (token.new.table_id ≡ token.old.table_id)
            × (token.new.id ≡ token.old.id) }
        ensures comes { IfSome result (λ r. Comes (P.meaning setting.now.program.now) J.guide
            access part.old part.new token.old.me token.new.me r) }
        ensures waits { IfNone result (MadeNone token.old.me token.new.me part.old part.new) }
        ensures at_work { IfNone result (MayStillCome (WasGoingOf P.meaning P.fits P.row.coded
            P.Value.row.coded J.program J.opening J.guide) J.guide (length J.threads)
            access part.old token.old.me) }
    {
        let readers = readers_of::<P, J>(&self.table.shared, token, access.var as usize);
        let number = part.counts.entries + 1;
        let Some((thread, number)) = waits_for(setting.guide, number, access, word / 2, &readers)
        else {
            return Some(self.go_on(setting, token, part, access, word));
        };
        let missed = MissedEntry {
            thread,
            number,
            var: access.var,
            places: word / 2,
        };
        if self.wait_on(setting.program, token, word, missed) {
            return Some(Touched::Blocked { thread, number });
        }
        None
    }

    /// Makes the touch or the read that the seat's thread wants, as soon as no other seat has the variable and the
    /// guide does not say to wait. It tries again only where the thread for whose entry it waits was still at work at
    /// one moment of the try before.
    pub(crate) fn touch_on<R: Wait, G: Gate>(
        &self,
        rt: &R,
        setting: &Setting<'_, P, G>,
        token: &mut Token<P::Value>,
        part: &mut ThreadPart,
        access: Access,
    ) -> Touched
        requires of { AreVarsOf P.meaning P.row.coded P.Value.row.coded
            setting.now.program.now self.now }
        requires guide { setting.now.guide.now ≡ J.guide }
        requires table { token.old.table_id ≡ self.now.round }
        requires room { moves_made part.old < 2 ^ 56 }
        requires wanted { IsWanted (P.meaning setting.now.program.now) part.old access }
        requires rests { HasThread token.old.me access.thread part.old }
        ensures same { (token.new.table_id ≡ token.old.table_id)
            × (token.new.id ≡ token.old.id) }
        ensures comes { ComesOf (P.meaning setting.now.program.now) J.guide access
            part.old part.new token.old.me token.new.me result }
    {
        let mut tries = 0;
        for _ in rt.forever() {
            let shared = &self.table.shared;
            let word = take_up::<P, J, R>(rt, setting.program, shared, token, access.var);
            let tried = self.try_on(setting, token, part, access, word);
            if let Some(touched) = tried {
                return touched;
            }
            tries = pause(tries);
        }
        unreachable!()
    }
}
