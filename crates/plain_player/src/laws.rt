//! Laws of schedules. Each is proved, and does nothing: a caller has it by the call.
ghost use Rattle.std.specs.Prelude.{◌≡◌, ◌⊎◌, ◌↔◌, ◌<◌, ℕ, List, length};
ghost use Rattle.plain_text.specs.declared.fault.LineCause.{LineCause};
ghost use Rattle.plain_text.specs.declared.limit.TheConstants.{MOST_EVENTS};
ghost use Rattle.plain_machine.specs.declared.plain_move.PlainMove.{PlainMove};
ghost use Rattle.plain_player.specs.Schedules.{IsSchedule, FirstFault, HasTooMany, FitLines};
ghost use Rattle.plain_player.specs.ScheduleText.{schedule_text};

/// A text is the schedule of one list of moves, or it has one first fault: exactly one of the two. It has too many
/// moves exactly where those of all its lines, or those before the first fault, pass the limit.
pub fn a_text_is_one_schedule_or_has_a_fault()
    ensures either { (text : List ℕ)
        → ((moves : List PlainMove) × IsSchedule text moves)
        ⊎ ((number : ℕ) × (cause : LineCause) × FirstFault text number cause) }
    ensures not_both { (text : List ℕ) (moves : List PlainMove) (number : ℕ) (cause : LineCause)
        → IsSchedule text moves → FirstFault text number cause → ⊥ }
    ensures one_schedule { (text : List ℕ) (a b : List PlainMove)
        → IsSchedule text a → IsSchedule text b → a ≡ b }
    ensures one_fault { (text : List ℕ) (x y : ℕ) (a b : LineCause)
        → FirstFault text x a → FirstFault text y b → (x ≡ y) × (a ≡ b) }
    ensures too_many { (text : List ℕ) (moves : List PlainMove)
        → IsSchedule text moves → HasTooMany text ↔ (MOST_EVENTS < length moves) }
    ensures too_many_before { (text : List ℕ) (number : ℕ) (cause : LineCause)
        → (first : FirstFault text number cause)
        → HasTooMany text ↔ (MOST_EVENTS < length first.things) }
{}

/// The text that `put_schedule` writes is the schedule of the moves that it wrote, and of no others; the threads are
/// below 2^32 and the answers below 2^64, as those of each `PlainMove` are.
pub fn written_schedules_are_read()
    ensures read { (moves : List PlainMove)
        → FitLines moves → IsSchedule (schedule_text moves) moves }
    ensures alone { (moves other : List PlainMove)
        → FitLines moves → IsSchedule (schedule_text moves) other → other ≡ moves }
{}
