//! Laws of scripts. Each is proved, and does nothing: a caller has it by the call.
ghost use Rattle.std.specs.Prelude.{◌≡◌, ◌⊎◌, ◌↔◌, ◌<◌, ℕ, List};
ghost use Rattle.plain_text.specs.declared.fault.LineCause.{LineCause};
ghost use Rattle.plain_text.specs.declared.limit.TheConstants.{MOST_EVENTS};
ghost use Rattle.recovery_world.specs.declared.event.Event.{Event};
ghost use Rattle.script_text.specs.Scripts.{IsScript, FirstFault, HasTooMany, FitWords, count_of};
ghost use Rattle.script_text.specs.Scripts.{script_text};

/// A text is the script of one list of events, or it has one first fault: exactly one of the two. It has too many
/// events exactly where those of all its lines, or those before the first fault, pass the limit.
pub fn a_text_is_one_script_or_has_a_fault()
    ensures either { (text : List ℕ)
        → ((events : List Event) × IsScript text events)
        ⊎ ((number : ℕ) × (cause : LineCause) × FirstFault text number cause) }
    ensures not_both { (text : List ℕ) (events : List Event) (number : ℕ) (cause : LineCause)
        → IsScript text events → FirstFault text number cause → ⊥ }
    ensures one_script { (text : List ℕ) (a b : List Event)
        → IsScript text a → IsScript text b → a ≡ b }
    ensures one_fault { (text : List ℕ) (x y : ℕ) (a b : LineCause)
        → FirstFault text x a → FirstFault text y b → (x ≡ y) × (a ≡ b) }
    ensures too_many { (text : List ℕ) (events : List Event)
        → IsScript text events → HasTooMany text ↔ (MOST_EVENTS < count_of events) }
    ensures too_many_before { (text : List ℕ) (number : ℕ) (cause : LineCause)
        → (first : FirstFault text number cause)
        → HasTooMany text ↔ (MOST_EVENTS < count_of first.things) }
{}

/// A text of the lines of events, each with a line feed, is the script of these events and of no others; the numbers of
/// the events are below 2^64, as `put_event` says of each.
pub fn written_scripts_are_read()
    ensures read { (events : List Event)
        → FitWords events → IsScript (script_text events) events }
    ensures alone { (events other : List Event)
        → FitWords events → IsScript (script_text events) other → other ≡ events }
{}
