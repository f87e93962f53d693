//! The laws of scripts of a chain. They are proved, and do nothing: a caller has them by the call.
ghost use Rattle.std.specs.Prelude.{◌≡◌, ◌⊎◌, ◌↔◌, ◌<◌, ℕ, List};
ghost use Rattle.plain_text.specs.declared.fault.LineCause.{LineCause};
ghost use Rattle.plain_text.specs.declared.limit.TheConstants.{MOST_EVENTS};
ghost use Rattle.chain_world.specs.declared.chain_event.ChainEvent.{ChainEvent};
ghost use Rattle.chain_text.specs.ChainScripts.{IsChainScript, FirstFault, HasTooMany, count_of};

/// A text is the script of one list of events of a chain, or it has one first fault: exactly one of the two. It has too
/// many events exactly where those of all its lines, or those before the first fault, pass the limit.
pub fn a_text_is_one_chain_script_or_has_a_fault()
    ensures either { (text : List ℕ)
        → ((events : List ChainEvent) × IsChainScript text events)
        ⊎ ((number : ℕ) × (cause : LineCause) × FirstFault text number cause) }
    ensures not_both { (text : List ℕ) (events : List ChainEvent) (number : ℕ) (cause : LineCause)
        → IsChainScript text events → FirstFault text number cause → ⊥ }
    ensures one_script { (text : List ℕ) (a b : List ChainEvent)
        → IsChainScript text a → IsChainScript text b → a ≡ b }
    ensures one_fault { (text : List ℕ) (x y : ℕ) (a b : LineCause)
        → FirstFault text x a → FirstFault text y b → (x ≡ y) × (a ≡ b) }
    ensures too_many { (text : List ℕ) (events : List ChainEvent)
        → IsChainScript text events → HasTooMany text ↔ (MOST_EVENTS < count_of events) }
    ensures too_many_before { (text : List ℕ) (number : ℕ) (cause : LineCause)
        → (first : FirstFault text number cause)
        → HasTooMany text ↔ (MOST_EVENTS < count_of first.things) }
{}
