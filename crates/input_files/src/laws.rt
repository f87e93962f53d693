//! The law of input files. It is proved, and does nothing: a caller has it by the call.
ghost use Rattle.std.specs.Prelude.{◌≡◌, ℕ, Bool, IsTrue, List, Result};
ghost use Rattle.plain_text.specs.declared.fault.LineFault.{LineFault};
ghost use Rattle.pcapng_io.specs.declared.fault.AnyFault.{AnyFault};
ghost use Rattle.box_conf.specs.declared.kind.BoxConf.{BoxConf};
ghost use Rattle.recovery_world.specs.declared.event.Event.{Event};
ghost use Rattle.chain_world.specs.declared.chain_event.ChainEvent.{ChainEvent};
ghost use Rattle.plain_machine.specs.declared.plain_move.PlainMove.{PlainMove};
ghost use Rattle.plan_script.specs.declared.plan.PlanLine.{PlanLine};
ghost use Rattle.world_io.specs.World.{Shown};
ghost use Rattle.input_files.specs.declared.capture_file.Capture.{Capture};
ghost use Rattle.input_files.specs.declared.errors.InputError.{InputError};
ghost use Rattle.input_files.specs.declared.image_file.ImageFile.{ImageFile};
ghost use Rattle.input_files.specs.Judging.{JudgesBox, JudgesCapture, JudgesSchedule, JudgesScript};
ghost use Rattle.input_files.specs.Judging.{JudgesChain, JudgesImage, JudgesPlan, IsDecided};

/// A file decides the answer to it: the answers exclude each other, so each comes exactly where what it says is true,
/// unless memory runs out or, in a world that is not healthy, reading fails.
pub fn each_file_has_one_answer()
    ensures box_file { (healthy : Bool) (name : List ℕ) (shown : Shown)
        (a b : Result BoxConf (InputError LineFault)) → IsDecided (IsTrue healthy) a
        → IsDecided (IsTrue healthy) b
        → JudgesBox (IsTrue healthy) name a shown → JudgesBox (IsTrue healthy) name b shown
        → a ≡ b }
    ensures capture { (healthy : Bool) (name : List ℕ) (shown : Shown)
        (a b : Result Capture (InputError AnyFault)) → IsDecided (IsTrue healthy) a
        → IsDecided (IsTrue healthy) b
        → JudgesCapture (IsTrue healthy) name a shown → JudgesCapture (IsTrue healthy) name b shown
        → a ≡ b }
    ensures script { (healthy : Bool) (name : List ℕ) (shown : Shown)
        (a b : Result (List Event) (InputError LineFault)) → IsDecided (IsTrue healthy) a
        → IsDecided (IsTrue healthy) b
        → JudgesScript (IsTrue healthy) name a shown → JudgesScript (IsTrue healthy) name b shown
        → a ≡ b }
    ensures chain { (healthy : Bool) (name : List ℕ) (shown : Shown)
        (a b : Result (List ChainEvent) (InputError LineFault)) → IsDecided (IsTrue healthy) a
        → IsDecided (IsTrue healthy) b
        → JudgesChain (IsTrue healthy) name a shown → JudgesChain (IsTrue healthy) name b shown
        → a ≡ b }
    ensures schedule { (healthy : Bool) (name : List ℕ) (shown : Shown)
        (a b : Result (List PlainMove) (InputError LineFault))
        → IsDecided (IsTrue healthy) a → IsDecided (IsTrue healthy) b
        → JudgesSchedule (IsTrue healthy) name a shown
        → JudgesSchedule (IsTrue healthy) name b shown → a ≡ b }
    ensures plan { (healthy : Bool) (name : List ℕ) (shown : Shown)
        (a b : Result (List PlanLine) (InputError LineFault)) → IsDecided (IsTrue healthy) a
        → IsDecided (IsTrue healthy) b
        → JudgesPlan (IsTrue healthy) name a shown → JudgesPlan (IsTrue healthy) name b shown
        → a ≡ b }
    ensures image { (healthy : Bool) (name : List ℕ) (shown : Shown)
        (a b : Result ImageFile (InputError LineFault)) → IsDecided (IsTrue healthy) a
        → IsDecided (IsTrue healthy) b
        → JudgesImage (IsTrue healthy) name a shown → JudgesImage (IsTrue healthy) name b shown
        → a ≡ b }
{}
