//! Laws of what is noted. Each is proved, and does nothing: a caller has it by the call.
ghost use Rattle.std.specs.Prelude.{◌≡◌, [], List, true};
ghost use Rattle.recovery_world.specs.declared.event.Event as event_of;
ghost use Rattle.recovery_world.specs.World.{Setting, World};
ghost use Rattle.made_moves.specs.Made.{made_in};
ghost use Rattle.run_drawing.specs.declared.note.Note as note_type;
ghost use Rattle.run_drawing.specs.Noted.{Noted, movers_in, movers_noted, moves_noted};
ghost use Rattle.run_drawing.specs.Picture.{are_short};

/// Behind any first part of the events the notes have all moves of the master there: those that its snapshot had, and
/// those that it made since, again or freely. So in no epoch is a move missing.
pub fn all_moves_are_noted<X>()
    ensures movers { (s : Setting X) (events : List event_of.Event) (notes : List note_type.Note)
        (w : World X) → Noted s events notes w → movers_noted [] notes ≡ movers_in w.past }
    ensures moves { (s : Setting X) (events : List event_of.Event) (notes : List note_type.Note)
        (w : World X) → Noted s events notes w → are_short notes ≡ true
        → moves_noted [] notes ≡ made_in w.past }
{}
