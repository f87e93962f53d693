//! Laws of plans as texts. Each is proved, and does nothing: a caller has it by the call.
ghost use Rattle.std.specs.Prelude.{◌≡◌, ◌⊎◌, ◌↔◌, ◌<◌, ℕ, List};
ghost use Rattle.plain_text.specs.declared.fault.LineCause.{LineCause};
ghost use Rattle.plain_text.specs.declared.limit.TheConstants.{MOST_EVENTS};
ghost use Rattle.plan_script.specs.declared.plan.PlanLine.{PlanLine};
ghost use Rattle.plan_text.specs.Plans.{IsPlan, FirstFault, HasTooMany, FitWords, count_of};
ghost use Rattle.plan_text.specs.Plans.{plan_text};

/// A text is one plan, or it has one first fault: exactly one of the two. It has too many lines exactly where all that
/// count, or those before the first fault, pass the limit.
pub fn a_text_is_one_plan_or_has_a_fault()
    ensures either { (text : List ℕ)
        → ((lines : List PlanLine) × IsPlan text lines)
        ⊎ ((number : ℕ) × (cause : LineCause) × FirstFault text number cause) }
    ensures not_both { (text : List ℕ) (lines : List PlanLine) (number : ℕ) (cause : LineCause)
        → IsPlan text lines → FirstFault text number cause → ⊥ }
    ensures one_plan { (text : List ℕ) (a b : List PlanLine)
        → IsPlan text a → IsPlan text b → a ≡ b }
    ensures one_fault { (text : List ℕ) (x y : ℕ) (a b : LineCause)
        → FirstFault text x a → FirstFault text y b → (x ≡ y) × (a ≡ b) }
    ensures too_many { (text : List ℕ) (lines : List PlanLine)
        → IsPlan text lines → HasTooMany text ↔ (MOST_EVENTS < count_of lines) }
    ensures too_many_before { (text : List ℕ) (number : ℕ) (cause : LineCause)
        → (first : FirstFault text number cause)
        → HasTooMany text ↔ (MOST_EVENTS < count_of first.things) }
{}

/// A text of the lines of a plan, each with a line feed, is this plan and no other; the numbers of the lines are below
/// 2^64, as `put_plan_line` says of each.
pub fn written_plans_are_read()
    ensures read { (lines : List PlanLine) → FitWords lines → IsPlan (plan_text lines) lines }
    ensures alone { (lines other : List PlanLine)
        → FitWords lines → IsPlan (plan_text lines) other → other ≡ lines }
{}
