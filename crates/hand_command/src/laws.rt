//! A law of runs that are handed over. It is proved, and does nothing: a caller has it by the call.
ghost use Rattle.std.specs.Prelude.{◌≡◌, ◌++◌, ℕ, List, Option};
ghost use Rattle.world_io.specs.World.{Shown};
ghost use Rattle.recovery_world.specs.declared.event.Event.{Event};
ghost use Rattle.recovery_world.specs.World.{Setting, World};
ghost use Rattle.recovery_world.specs.Files.{Leaves, done_line, moves_made};
ghost use Rattle.run_writes.specs.Run.{OutputNames};
ghost use Rattle.run_writes.specs.Replies.{lines_in, released_in};
ghost use Rattle.hand_command.specs.Hand.{HasHanded, IsHandedOver, resting};
ghost use Rattle.hand_command.specs.Resume.{HasResumed};

/// A run that is handed over, and gone on with from its image, is one run: of the events of the one script, the four
/// that bring the system to rest, and the events of the other. The lines and the released packets of the two, one
/// behind the other, are what that run leaves, and its schedule is that of the second.
pub fn hand_and_resume_are_one_run<X>()
    ensures { (seal : Option (List ℕ)) (s : Setting X) (names others : OutputNames)
        (events rest : List Event) (a b c d : Shown) (h : HasHanded seal s names events a b)
        (goes_on : (w : World X) → IsHandedOver s w h.hand.image → HasResumed s w others rest c d)
        → Leaves s (events ++ resting ++ rest)
        (lines_in (h.hand.replies ++ h.hand.last)
        ++ (lines_in (goes_on h.hand.world h.hand.handed).replies
        ++ done_line (goes_on h.hand.world h.hand.handed).world))
        (released_in (h.hand.replies ++ h.hand.last)
        ++ released_in (goes_on h.hand.world h.hand.handed).replies)
        (moves_made (goes_on h.hand.world h.hand.handed).steps) }
{}
