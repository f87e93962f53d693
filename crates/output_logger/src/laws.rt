//! The law of what is released over the life of a logger. It is proved, and does nothing: a caller has it by the call.
ghost use Rattle.std.specs.Prelude.{ℕ, ◌↔◌, List};
ghost use Rattle.access_log.specs.declared.entry.Output.{Output};
ghost use Rattle.dup_filter.specs.Numbers.{Numbers, WasMarked};
ghost use Rattle.output_logger.specs.Logger.{IsNamed, AreApart, Lives};

/// Of the outputs that were released by any number of calls, where none was released before, no two have one thread and
/// one number; and the numbers that are noted as released are theirs.
pub fn each_output_is_released_once()
    ensures once { (old new : List Numbers) (outs : List Output)
        → ((t n : ℕ) → WasMarked old t n → ⊥) → Lives old outs new → AreApart outs }
    ensures noted { (old new : List Numbers) (outs : List Output)
        → ((t n : ℕ) → WasMarked old t n → ⊥) → Lives old outs new
        → (t n : ℕ) → WasMarked new t n ↔ IsNamed t n outs }
{}
