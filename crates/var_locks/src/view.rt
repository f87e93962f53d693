//! What a seat of a round knows, the rule, and what the steps tell. Only of `MissedEntry` a value is made.
use crate::spaced::Slot;
use atomic_table::{Join, Play, Split, TableRule};
use box_program::Program;
use master_core::{ThreadPart, Trace, VarPart};
use plain_text::Packet;
use std::collections::LinkedList;
use std::marker::{Brand, PhantomData};

/// One move of a thread.
pub struct Note<V> {
    /// The thread's part before the move and after it.
    pub before: ThreadPart,
    pub after: ThreadPart,
    pub trace: Trace,
    /// The packet that the move was made with, where one was passed.
    pub packet: Option<Packet>,
    /// Of a touch or a read: what it found of its variable.
    pub found: Option<VarPart<V>>,
}

/// What a seat has of a thread: its moves in the round, newest first, and its part after them.
pub struct Share<V> {
    pub thread: u32,
    pub notes: LinkedList<Note<V>>,
    pub part: ThreadPart,
    /// Whether the thread ended the round.
    pub ended: bool,
}

/// A variable in hand, as it was found at home.
pub struct Held<V> {
    pub var: u64,
    pub found: VarPart<V>,
}

/// A followed entry that was found missing, at which variable, and how often this was touched then.
#[derive(Clone, Copy)]
pub struct MissedEntry {
    pub thread: u32,
    pub number: u64,
    pub var: u32,
    pub places: u64,
}

/// What a seat knows.
pub struct View<V> {
    pub shares: LinkedList<Share<V>>,
    pub hand: Option<Held<V>>,
    /// For each variable, the greatest number of its touches that was seen.
    pub seen: LinkedList<u64>,
    /// The followed entries that were found missing.
    pub missing: LinkedList<MissedEntry>,
}

/// Which round it is: the codes of its program and of its opening master, the parts of the threads and the places of
/// the variables in this master, and what is followed.
pub trait Round {
    ghost use Rattle.std.specs.Prelude.{List, ℕ};
    ghost use base.Stored.{Gv};
    ghost use Rattle.access_log.specs.Held.{Lane};
    ghost use Rattle.master_core.specs.declared.parts.ThreadPart.{ThreadPart};

    ghost program: { Gv };

    ghost opening: { Gv };

    ghost threads: { List ThreadPart };

    ghost places: { List ℕ };

    ghost guide: { List Lane };
}

impl Round for Brand {
    ghost use Rattle.std.specs.Prelude.{[]};
    ghost use Rattle.var_locks.specs.Codes.{nothing};

    ghost program = { nothing };

    ghost opening = { nothing };

    ghost threads = { [] };

    ghost places = { [] };

    ghost guide = { [] };
}

/// The rule of the round that J names.
pub struct Law<P, J> {
    of: PhantomData<(P, J)>,
}

impl<P: Program, J: Round> TableRule<Slot<P::Value>, View<P::Value>, ()> for Law<P, J> {
    ghost use Rattle.var_locks.specs.Told.{IsToldOf};
    ghost use Rattle.var_locks.specs.Views.{first_view};

    ghost holds = { λ _. IsToldOf P.meaning P.fits P.row.coded P.Value.row.coded
        J.program J.opening J.guide };

    ghost first = { λ _. first_view J.threads J.places };
}

/// A seat takes a variable, if the word is as it was seen.
pub struct Taken<P, J> {
    of: PhantomData<(P, J)>,
}

impl<P: Program, J: Round> Play<Slot<P::Value>, View<P::Value>> for Taken<P, J> {
    ghost use Rattle.var_locks.specs.Plays.{Takes};

    ghost then = { Takes P.fits P.row.coded J.program };
}

/// Which move a step notes: the code of its note.
pub trait News {
    ghost use base.Stored.{Gv};

    ghost note: { Gv };
}

impl News for Brand {
    ghost use Rattle.var_locks.specs.Codes.{nothing};

    ghost note = { nothing };
}

/// A seat notes a move on no variable.
pub struct Noted<N> {
    news: PhantomData<N>,
}

impl<V, N: News> Play<Slot<V>, View<V>> for Noted<N> {
    ghost use Rattle.var_locks.specs.Plays.{Notes};
    ghost use Rattle.var_locks.specs.Codes.{note_code};

    ghost then = { Notes (note_code V.row.coded) N.note };
}

/// A seat brings the variable in hand home, after a touch or a read.
pub struct Brought<N> {
    news: PhantomData<N>,
}

impl<V, N: News> Play<Slot<V>, View<V>> for Brought<N> {
    ghost use Rattle.var_locks.specs.Plays.{Brings};
    ghost use Rattle.var_locks.specs.Codes.{note_code};

    ghost then = { Brings (note_code V.row.coded) N.note };
}

/// A seat gives the variable in hand back as it found it.
pub struct Given;

impl<V> Play<Slot<V>, View<V>> for Given {
    ghost use Rattle.var_locks.specs.Plays.{Gives};

    ghost then = { Gives };
}

/// Which followed entry is looked for, and at which variable.
pub trait Named {
    ghost use Rattle.var_locks.specs.declared.view.MissedEntry.{MissedEntry};

    ghost entry: { MissedEntry };
}

impl Named for Brand {
    ghost entry = { record { thread = 0; number = 0; var = 0; places = 0 } };
}

/// A seat looks whether the thread of an entry ended, and if so finds the entry missing. If not, the thread was going.
pub struct Missed<P, J, N> {
    of: PhantomData<(P, J, N)>,
}

impl<P: Program, J: Round, N: Named> Play<Slot<P::Value>, View<P::Value>> for Missed<P, J, N> {
    ghost use Rattle.var_locks.specs.Plays.{Misses};
    ghost use Rattle.var_locks.specs.Told.{WasGoingOf};

    ghost then = { Misses (WasGoingOf P.meaning P.fits P.row.coded P.Value.row.coded
        J.program J.opening J.guide) N.entry };
}

/// A seat ends the round for its thread.
pub struct Ended;

impl<V> Play<Slot<V>, View<V>> for Ended {
    ghost use Rattle.var_locks.specs.Plays.{Ends};

    ghost then = { Ends };
}

/// A seat gets its thread, and comes back.
pub struct Parted;

impl<V> Split<View<V>> for Parted {
    ghost use Rattle.var_locks.specs.Views.{first_share, other_shares};

    ghost left = { other_shares };

    ghost right = { first_share };
}

impl<V> Join<View<V>> for Parted {
    ghost use Rattle.var_locks.specs.Views.{joined_view, spent_view};

    ghost both = { joined_view };

    ghost spent = { spent_view };
}
