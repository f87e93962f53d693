//! The laws of what the threads of a round did. Each is proved, and does nothing: a caller has it by the call.
ghost use Rattle.round_join.specs.Idling.{EndIdle};
ghost use Rattle.round_join.specs.Marking.{SeatsHaveMarks};
ghost use Rattle.round_join.specs.Weaving.{WovenSteps};
ghost use Rattle.round_join.specs.Ordering.{RoundsAreInOrder, RoundsAreLight};
ghost use Rattle.round_join.specs.Racing.{NotedPerform};

use box_program::Program;

/// The woven receipts of a round are the steps of a plan's round: the logged ones by weight, then thread, each after
/// the moves of its thread that lead to it, and then, thread by thread, the others.
pub fn woven_receipts_are_steps_of_a_plan<X>()
    ensures woven { WovenSteps X }
{}

/// The marks that the seats of a round keep are those of the receipts that their notes are, whatever the past, where
/// each weight has 64 bits. So the turns that `round_order::weave` answers for them are those of the woven list.
pub fn seats_have_marks<X>()
    ensures marks { SeatsHaveMarks X }
{}

/// The threads of a round with no limits end idle: while a thread waits for an entry, one of the threads can move.
pub fn unlimited_rounds_end_idle<X>()
    ensures idle { EndIdle X }
{}

/// The events that are noted of a round are performed, and their lines say what is noted of them.
pub fn noted_events_are_performed<X>()
    ensures perform { NotedPerform X }
{}

/// The moves of a raced round, in the turns of its marks, may be noted one after another; and each entry that a seat's
/// thread logged is light.
pub fn rounds_are_in_order<P: Program>(program: &P)
    ensures light { RoundsAreLight P (P.meaning program.now) (P.fits program.now) }
    ensures in_order { RoundsAreInOrder P (P.meaning program.now) (P.fits program.now) }
{}
