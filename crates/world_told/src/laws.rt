//! That answers can be honest. It is proved, and does nothing.
ghost use Rattle.std.specs.Prelude.{◌≡◌, List, true};
ghost use Rattle.world_io.specs.World.{Start};
ghost use Rattle.world_told.specs.Events.{Event};
ghost use Rattle.world_told.specs.Honest.{IsHonest};
ghost use Rattle.world_told.specs.Orderly.{AnswersAgree, OpensOnce, are_orderly};

/// Whatever was answered, there are bytes for the names at the beginning, so that the answers are
/// those of files which held them: if the calls are orderly, and files that were opened by one name
/// gave the same bytes.
pub fn some_beginning()
    ensures { (calls : List Event) → are_orderly calls ≡ true → AnswersAgree calls
        → (p : Start) × IsHonest p calls }
{}

/// Where no name was opened twice, the answers agree.
pub fn opened_once_agree()
    ensures { (calls : List Event) → OpensOnce calls → AnswersAgree calls }
{}
