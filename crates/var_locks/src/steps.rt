//! The steps of a round on its words. Each keeps the rule.
ghost use Rattle.std.specs.Prelude.{◌≡◌, ◌+◌, ◌<◌, true, false, [], ◌∷◌, length, None, IfOk, IfErr};
ghost use Rattle.std.specs.Prelude.{option_copied, IfSome, IfNone};
ghost use Rattle.atomic_table.specs.Table.{rest};
ghost use Rattle.master_core.specs.Mastered.{Mastered};
ghost use Rattle.master_core.specs.declared.parts.VarPart as var_of;
ghost use Rattle.var_locks.specs.declared.view.Note as note_of;
ghost use Rattle.var_locks.specs.Codes.{note_code};
ghost use Rattle.var_locks.specs.Notes.{own_note};
ghost use Rattle.var_locks.specs.Words.{thread_word};
ghost use Rattle.var_locks.specs.Views.{note_on, first_view, first_share, other_shares};
ghost use Rattle.var_locks.specs.Views.{joined_view, with_hand, empty_hand, noted_view};
ghost use Rattle.var_locks.specs.Views.{missed_view, ended_view};
ghost use Rattle.var_locks.specs.Plays.{Finds};
ghost use Rattle.var_locks.specs.Rounds.{IsRoundOf, Opens, CanTake, CanNote, CanBring, CanGive};
ghost use Rattle.var_locks.specs.Rounds.{CanMiss, CanEnd, CanSplit};
ghost use Rattle.var_locks.specs.Told.{WasGoingOf};

use crate::lines::var_word;
use crate::spaced::Slot;
use crate::view::{
    Brought, Ended, Given, Law, Missed, MissedEntry, Named, News, Noted, Parted, Round, Taken, View,
};
use atomic_table::{Refused, Seat, Shared, Table};
use box_program::Program;
use master_core::{ThreadPart, Trace};
use plain_text::Packet;
use std::alloc::Global;
use std::hint::spin_loop;
use std::marker::Brand;
use std::sync::Wait;
use std::thread;

/// The words and the values of a round, as its seats see them.
pub(crate) type Lock<P, J> = Shared<
    Slot<<P as Program>::Value>,
    View<<P as Program>::Value>,
    (),
    Law<P, J>,
>;

pub(crate) type LockTable<P, J> = Table<
    Slot<<P as Program>::Value>,
    View<<P as Program>::Value>,
    (),
    Law<P, J>,
    Global,
>;

/// What a seat takes its steps with.
pub(crate) type Token<V> = Seat<Slot<V>, View<V>>;

/// What a move made of its thread: the part before it and after it, and what it did.
#[derive(Clone, Copy)]
pub(crate) struct Made<'a> {
    pub(crate) before: &'a ThreadPart,
    pub(crate) after: &'a ThreadPart,
    pub(crate) trace: &'a Trace,
}

/// A table for the variables of a round, and the first seat, which has all threads.
pub(crate) fn open_round<P: Program, J: Round>(
    alloc: Global,
    program: &P,
    words: &[u64],
    parts: Vec<Slot<P::Value>>,
) -> Result<(LockTable<P, J>, Token<P::Value>), Refused<Slot<P::Value>, Global>>
    requires of { P.row.coded.code program.now ≡ J.program }
    requires opens { (p : Mastered P.Value) × Opens (P.meaning program.now) (P.fits program.now)
        P.Value.row.coded J.opening J.threads J.places parts.items words.now p }
    ensures first { IfOk result (λ t. t.1.me ≡ (first_view J.threads J.places, [])) }
    ensures same { IfOk result (λ t. (t.1.table_id ≡ t.0.shared.table_id)
        × (t.0.shared.table_id.words ≡ length words.now)
        × (t.0.shared.table_id.slots ≡ length parts.items)) }
    ensures refused { IfErr result (λ r. r.slots.items ≡ parts.items) }
{
    let _ = program;
    Table::new(alloc, words, parts, &())
}

/// Takes a variable, if no other seat has it. The answer is the word: twice how often it was touched.
fn try_take<P: Program, J: Round>(
    program: &P,
    shared: &Lock<P, J>,
    token: &mut Token<P::Value>,
    var: u32,
) -> Option<u64>
    requires of { IsRoundOf P.meaning P.row.coded P.Value.row.coded
        J.program J.opening J.threads program.now shared.now.table_id.words }
    requires table { token.old.table_id ≡ shared.now.table_id }
    requires var_in { var < (P.meaning program.now).vars }
    requires idle { CanTake token.old.me.0 }
    ensures same { (token.new.table_id ≡ token.old.table_id) × (token.new.id ≡ token.old.id) }
    ensures taken { IfSome result (λ word. (x : var_of.VarPart P.Value)
        × Finds P.fits P.row.coded J.program token.old.me.0 var word x
        × (token.new.me ≡ (with_hand token.old.me.0 var x, (var, x) ∷ token.old.me.1))) }
    ensures left { IfNone result (token.new.me ≡ token.old.me) }
{
    let _ = program;
    let index = var_word(var);
    let word = shared.peek(index);
    if word % 2 == 0 {
        let found = shared.compare_exchange::<Taken<P, J>>(token, index, word, word + 1);
        if found == word {
            return Some(word);
        }
    }
    None
}

/// So many tries are made one after the other before other threads are let run.
const MOST_TRIES: u32 = 4;

/// Lets some time go by after so many tries: most waits are shorter than a change of threads. The answer is how many
/// tries were made since one was let run.
pub(crate) fn pause(tries: u32) -> u32 {
    if tries < MOST_TRIES {
        spin_loop();
        return tries + 1;
    }
    thread::yield_now();
    0
}

/// Takes a variable, as soon as no other seat has it. The answer is the word: twice how often it was touched.
pub(crate) fn take_up<P: Program, J: Round, R: Wait>(
    rt: &R,
    program: &P,
    shared: &Lock<P, J>,
    token: &mut Token<P::Value>,
    var: u32,
) -> u64
    requires of { IsRoundOf P.meaning P.row.coded P.Value.row.coded
        J.program J.opening J.threads program.now shared.now.table_id.words }
    requires table { token.old.table_id ≡ shared.now.table_id }
    requires var_in { var < (P.meaning program.now).vars }
    requires idle { CanTake token.old.me.0 }
    ensures same { (token.new.table_id ≡ token.old.table_id) × (token.new.id ≡ token.old.id) }
    ensures taken { (x : var_of.VarPart P.Value)
        × Finds P.fits P.row.coded J.program token.old.me.0 var result x
        × (token.new.me ≡ (with_hand token.old.me.0 var x, (var, x) ∷ token.old.me.1)) }
{
    let mut tries = 0;
    for _ in rt.forever() {
        if let Some(word) = try_take(program, shared, token, var) {
            return word;
        }
        tries = pause(tries);
    }
    unreachable!()
}

/// Notes the seat's next move, on no variable, by a load of its thread's word.
fn note_as<P: Program, J: Round, N: News>(
    program: &P,
    shared: &Lock<P, J>,
    token: &mut Token<P::Value>,
    word: usize,
    made: Made<'_>,
    packet: Option<&Packet>,
)
    requires of { IsRoundOf P.meaning P.row.coded P.Value.row.coded
        J.program J.opening J.threads program.now shared.now.table_id.words }
    requires table { token.old.table_id ≡ shared.now.table_id }
    requires word_in { word < shared.now.table_id.words }
    requires code { (note_code P.Value.row.coded).code
        (own_note made.before.now made.after.now made.trace.now (option_copied packet)) ≡ N.note }
    requires next { CanNote (P.meaning program.now) J.guide token.old.me.0
        (own_note made.before.now made.after.now made.trace.now (option_copied packet)) }
    ensures same { (token.new.table_id ≡ token.old.table_id) × (token.new.id ≡ token.old.id) }
    ensures noted { (n : note_of.Note P.Value) × ((note_code P.Value.row.coded).code n ≡ N.note)
        × (token.new.me ≡ (noted_view token.old.me.0 n, token.old.me.1)) }
{
    let _ = program;
    let _ = made;
    let _ = packet;
    shared.load::<Noted<N>>(token, word);
}

/// Notes the seat's next move, on no variable, by a load of its thread's word.
pub(crate) fn note_move<P: Program, J: Round>(
    program: &P,
    shared: &Lock<P, J>,
    token: &mut Token<P::Value>,
    word: usize,
    made: Made<'_>,
    packet: Option<&Packet>,
)
    requires of { IsRoundOf P.meaning P.row.coded P.Value.row.coded
        J.program J.opening J.threads program.now shared.now.table_id.words }
    requires table { token.old.table_id ≡ shared.now.table_id }
    requires word_in { word < shared.now.table_id.words }
    requires next { CanNote (P.meaning program.now) J.guide token.old.me.0
        (own_note made.before.now made.after.now made.trace.now (option_copied packet)) }
    ensures same { (token.new.table_id ≡ token.old.table_id) × (token.new.id ≡ token.old.id) }
    ensures noted { token.new.me ≡ (
      noted_view token.old.me.0
          (own_note made.entry.before.now made.entry.after.now made.entry.trace.now
          (option_copied packet.entry)),
      token.old.me.1,
    ) }
{
    note_as::<P, J, Brand>(program, shared, token, word, made, packet);
}

/// Brings the variable in hand home, after a touch or a read of it.
fn bring_as<P: Program, J: Round, N: News>(
    program: &P,
    shared: &Lock<P, J>,
    token: &mut Token<P::Value>,
    var: u32,
    word: u64,
    made: Made<'_>,
)
    requires of { IsRoundOf P.meaning P.row.coded P.Value.row.coded
        J.program J.opening J.threads program.now shared.now.table_id.words }
    requires table { token.old.table_id ≡ shared.now.table_id }
    requires var_in { var < (P.meaning program.now).vars }
    requires code { (note_code P.Value.row.coded).code
        (note_on made.before.now made.after.now made.trace.now token.old.me.0) ≡ N.note }
    requires next { CanBring (P.meaning program.now) (P.fits program.now) J.guide token.old.me
        var word (note_on made.before.now made.after.now made.trace.now token.old.me.0) }
    ensures same { (token.new.table_id ≡ token.old.table_id) × (token.new.id ≡ token.old.id) }
    ensures brought { (n : note_of.Note P.Value)
        × ((note_code P.Value.row.coded).code n ≡ N.note)
        × (token.new.me ≡ (noted_view token.old.me.0 n, rest token.old.me.1)) }
{
    let _ = program;
    let _ = made;
    shared.store::<Brought<N>>(token, var_word(var), word);
}

/// Brings the variable in hand home, after a touch or a read of it.
pub(crate) fn bring_home<P: Program, J: Round>(
    program: &P,
    shared: &Lock<P, J>,
    token: &mut Token<P::Value>,
    var: u32,
    word: u64,
    made: Made<'_>,
)
    requires of { IsRoundOf P.meaning P.row.coded P.Value.row.coded
        J.program J.opening J.threads program.now shared.now.table_id.words }
    requires table { token.old.table_id ≡ shared.now.table_id }
    requires var_in { var < (P.meaning program.now).vars }
    requires next { CanBring (P.meaning program.now) (P.fits program.now) J.guide token.old.me
        var word (note_on made.before.now made.after.now made.trace.now token.old.me.0) }
    ensures same { (token.new.table_id ≡ token.old.table_id) × (token.new.id ≡ token.old.id) }
    ensures brought { token.new.me ≡ (
      noted_view token.old.me.0
          (note_on made.entry.before.now made.entry.after.now made.entry.trace.now
          token.old.me.0),
      [],
    ) }
{
    bring_as::<P, J, Brand>(program, shared, token, var, word, made);
}

/// Gives the variable in hand back, as it was found.
pub(crate) fn give_back<P: Program, J: Round>(
    program: &P,
    shared: &Lock<P, J>,
    token: &mut Token<P::Value>,
    var: u32,
    word: u64,
)
    requires of { IsRoundOf P.meaning P.row.coded P.Value.row.coded
        J.program J.opening J.threads program.now shared.now.table_id.words }
    requires table { token.old.table_id ≡ shared.now.table_id }
    requires var_in { var < (P.meaning program.now).vars }
    requires found { CanGive token.old.me var word }
    ensures same { (token.new.table_id ≡ token.old.table_id) × (token.new.id ≡ token.old.id) }
    ensures given { token.new.me ≡ (empty_hand token.old.me.0, []) }
{
    let _ = program;
    shared.store::<Given>(token, var_word(var), word);
}

/// Whether the thread of an entry ended, for which the guide says to wait at the variable in hand. If so, the entry is
/// missing; if not, the thread had not ended at one moment of the call.
fn misses_as<P: Program, J: Round, N: Named>(
    program: &P,
    shared: &Lock<P, J>,
    token: &mut Token<P::Value>,
    word: usize,
    missed: MissedEntry,
) -> bool
    requires of { IsRoundOf P.meaning P.row.coded P.Value.row.coded
        J.program J.opening J.threads program.now shared.now.table_id.words }
    requires table { token.old.table_id ≡ shared.now.table_id }
    requires named { missed ≡ N.entry }
    requires thread_in { missed.thread < length J.threads }
    requires word_is { word ≡ thread_word (P.meaning program.now).vars missed.thread }
    requires waits { CanMiss (P.meaning program.now) J.guide token.old.me.0 missed }
    ensures same { (token.new.table_id ≡ token.old.table_id) × (token.new.id ≡ token.old.id) }
    ensures missing { result ≡ true
        → token.new.me ≡ (missed_view token.old.me.0 N.entry, token.old.me.1) }
    ensures going { result ≡ false → token.new.me ≡ token.old.me }
    ensures at_work { result ≡ false → WasGoingOf P.meaning P.fits P.row.coded P.Value.row.coded
        J.program J.opening J.guide token.old.me.0 missed.thread }
{
    let _ = program;
    let _ = missed;
    shared.load::<Missed<P, J, N>>(token, word) == 1
}

/// Whether the thread of an entry ended, for which the guide says to wait at the variable in hand. If so, the entry is
/// missing; if not, the thread had not ended at one moment of the call.
pub(crate) fn misses<P: Program, J: Round>(
    program: &P,
    shared: &Lock<P, J>,
    token: &mut Token<P::Value>,
    word: usize,
    missed: MissedEntry,
) -> bool
    requires of { IsRoundOf P.meaning P.row.coded P.Value.row.coded
        J.program J.opening J.threads program.now shared.now.table_id.words }
    requires table { token.old.table_id ≡ shared.now.table_id }
    requires thread_in { missed.thread < length J.threads }
    requires word_is { word ≡ thread_word (P.meaning program.now).vars missed.thread }
    requires waits { CanMiss (P.meaning program.now) J.guide token.old.me.0 missed }
    ensures same { (token.new.table_id ≡ token.old.table_id) × (token.new.id ≡ token.old.id) }
    ensures missing { result ≡ true
        → token.new.me ≡ (missed_view token.old.me.0 missed, token.old.me.1) }
    ensures going { result ≡ false → token.new.me ≡ token.old.me }
    ensures at_work { result ≡ false → WasGoingOf P.meaning P.fits P.row.coded P.Value.row.coded
        J.program J.opening J.guide token.old.me.0 missed.thread }
{
    misses_as::<P, J, Brand>(program, shared, token, word, missed)
}

/// Ends the round for the seat's thread.
pub(crate) fn end_round<P: Program, J: Round>(
    program: &P,
    shared: &Lock<P, J>,
    token: &mut Token<P::Value>,
    word: usize,
)
    requires of { IsRoundOf P.meaning P.row.coded P.Value.row.coded
        J.program J.opening J.threads program.now shared.now.table_id.words }
    requires table { token.old.table_id ≡ shared.now.table_id }
    requires word_in { word < shared.now.table_id.words }
    requires idle { CanEnd (P.meaning program.now) token.old.me.0 word }
    ensures same { (token.new.table_id ≡ token.old.table_id) × (token.new.id ≡ token.old.id) }
    ensures ended { token.new.me ≡ (ended_view token.old.me.0, token.old.me.1) }
{
    let _ = program;
    shared.store::<Ended>(token, word, 1);
}

/// A seat of its own for the first thread of a seat.
pub(crate) fn split_off<P: Program, J: Round>(
    program: &P,
    shared: &Lock<P, J>,
    token: &mut Token<P::Value>,
) -> Token<P::Value>
    requires of { IsRoundOf P.meaning P.row.coded P.Value.row.coded
        J.program J.opening J.threads program.now shared.now.table_id.words }
    requires table { token.old.table_id ≡ shared.now.table_id }
    requires some { 0 < shared.now.table_id.words }
    requires first { CanSplit token.old.me.0 }
    ensures same { (token.new.table_id ≡ token.old.table_id) × (token.new.id ≡ token.old.id) }
    ensures others { token.new.me ≡ (other_shares token.old.me.0, token.old.me.1) }
    ensures round { result.table_id ≡ token.old.table_id }
    ensures first { result.me ≡ (first_share token.old.me.0, []) }
{
    let _ = program;
    shared.split_seat::<Parted>(token)
}

/// Takes a seat's threads into another one.
pub(crate) fn join_in<P: Program, J: Round>(
    program: &P,
    shared: &Lock<P, J>,
    token: &mut Token<P::Value>,
    other: Token<P::Value>,
)
    requires of { IsRoundOf P.meaning P.row.coded P.Value.row.coded
        J.program J.opening J.threads program.now shared.now.table_id.words }
    requires table { token.old.table_id ≡ shared.now.table_id }
    requires other_table { other.table_id ≡ shared.now.table_id }
    requires some { 0 < shared.now.table_id.words }
    requires empty { token.old.me.0.hand ≡ None }
    requires other { (other.me.0.hand ≡ None) × (other.me.1 ≡ []) }
    ensures same { (token.new.table_id ≡ token.old.table_id) × (token.new.id ≡ token.old.id) }
    ensures joined { token.new.me ≡ (joined_view token.old.me.0 other.me.0, token.old.me.1) }
{
    let _ = program;
    shared.join_seat::<Parted>(token, other);
}
