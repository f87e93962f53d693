//! Laws of the events and of the report. They are proved, and do nothing: a caller has them by the call.
ghost use Rattle.std.specs.Prelude.{◌≡◌, ℕ, ◌*◌, ◌≤◌, List};
ghost use Rattle.plain_machine.specs.History.{Step, sent_of};
ghost use Rattle.plain_machine.specs.Agree.{SendsAfter};
ghost use Rattle.recovery_world.specs.World.{Sent};
ghost use Rattle.recovery_world.specs.Events.{IsAmong};
ghost use Rattle.drill_report.specs.Events.{rounds};
ghost use Rattle.drill_report.specs.Report.{count_waiting};

/// Where all that a run sends out was released, as behind a settling, nothing waits and nothing is under way.
pub fn what_was_all_released_waits_for_nothing<X>()
    ensures { (steps : List (Step X)) (released : List Sent)
        → ((o : Sent) → SendsAfter steps o.emission o.after → IsAmong o released)
        → count_waiting (sent_of steps) released ≡ 0 }
{}

/// A drill has as many rounds as it takes to feed all packets, and no more.
pub fn rounds_are_the_fewest_that_feed_all()
    ensures enough { (every packets : ℕ) → 1 ≤ every → packets ≤ rounds every packets * every }
    ensures fewest { (every packets n : ℕ) → 1 ≤ every → packets ≤ n * every
        → rounds every packets ≤ n }
{}
