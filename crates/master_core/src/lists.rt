//! The law of the lists of moves that masters stand for. It is proved, and does nothing: a caller has it by the call.
ghost use Rattle.master_core.specs.Lists.{StartsList, GrowsList, FollowsList, HasHistory};
ghost use Rattle.master_core.specs.Lists.{MovesWithin};

/// A master stands for the list of the moves that it made since it was fresh: one more with each call that made a move.
/// Such a list is legal, its steps are a history, and a thread made at most as many moves as it has.
pub fn lists_are_followed<X>()
    ensures starts { StartsList X }
    ensures grows { GrowsList X }
    ensures follows { FollowsList X }
    ensures history { HasHistory X }
    ensures within { MovesWithin X }
{}
