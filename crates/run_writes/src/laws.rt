//! A law of what a run writes. It is proved, and does nothing: a caller has it by the call.
ghost use Rattle.std.specs.Prelude.{◌≡◌, List};
ghost use Rattle.plain_text.specs.declared.limit.Limit.{Limit};
ghost use Rattle.recovery_world.specs.declared.event.Event.{Event};
ghost use Rattle.recovery_world.specs.World.{Setting};
ghost use Rattle.output_files.specs.Writes.{Write, IsCut};
ghost use Rattle.run_writes.specs.Run.{OutputNames, WritesSome, WritesUntil, WritesAll};
ghost use Rattle.run_writes.specs.Steps.{KeepStep};

/// Wherever a call ends, the released capture and the report keep step: where the report has the whole line of an
/// event, the capture has the records of all that was released up to and with that event; and it has a byte of the
/// record of an output only where the report has the whole lines of all events before the one that released it.
pub fn outputs_keep_step<X>()
    ensures some { (s : Setting X) (names : OutputNames) (events : List Event)
        (writes done : List Write) → (names.released ≡ names.schedule → ⊥)
        → (w : WritesSome s names events writes) → IsCut done writes
        → KeepStep names s.fractions w.replies done }
    ensures until { (s : Setting X) (names : OutputNames) (events : List Event) (limit : Limit)
        (writes done : List Write) → (names.released ≡ names.schedule → ⊥)
        → (w : WritesUntil s names events limit writes) → IsCut done writes
        → KeepStep names s.fractions w.replies done }
    ensures all { (s : Setting X) (names : OutputNames) (events : List Event)
        (writes done : List Write) → (names.released ≡ names.schedule → ⊥)
        → (w : WritesAll s names events writes) → IsCut done writes
        → KeepStep names s.fractions w.replies done }
{}
