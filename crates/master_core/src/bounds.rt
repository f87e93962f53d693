//! The law of the bounds of a master. It is proved, and does nothing: a caller has it by the call.
ghost use Rattle.std.specs.Prelude.{◌≡◌, ℕ, ◌<◌, ◌≤◌, ◌^◌, List, Ok, length, slice_index_or};
ghost use Rattle.plain_text.specs.declared.packet.Packet.{Packet};
ghost use Rattle.plain_machine.specs.Program.{Meaning};
ghost use Rattle.plain_machine.specs.History.{Step, play};
ghost use Rattle.plain_machine.specs.declared.plain_move.PlainMove.{PlainMove};
ghost use Rattle.master_core.specs.declared.parts.ThreadPart.{ThreadPart};
ghost use Rattle.master_core.specs.Mastered.{Mastered, IsBounded, moves_made};
ghost use Rattle.master_core.specs.MasterStanding.{Stands};

/// What stands for a legal list of moves is within the bounds of a master, where it has a part for each variable and at
/// most 16 threads, and none of these made more than 2^56 moves. So its parts can be put together by
/// `Master::of_parts`.
pub fn standing_masters_are_bounded<X>()
    ensures { (m : Meaning X) (inputs : ℕ → List Packet) (threads : ℕ) (moves : List PlainMove)
        (steps : List (Step X)) (q : Mastered X)
        → play m inputs threads moves ≡ Ok steps → Stands m threads steps q
        → threads ≤ 16 → length q.vars ≡ m.vars
        → ((t : ℕ) (d : ThreadPart) → t < threads
        → moves_made (slice_index_or q.threads t d) ≤ 2 ^ 56)
        → IsBounded q.vars q.threads }
{}
