//! The laws of a round, of every program. Each is proved, and does nothing: a caller has it by the call.
ghost use Rattle.std.specs.Prelude.{◌≡◌, List};
ghost use Rattle.round_order.specs.Receipts.{Receipt, Receipts};
ghost use Rattle.round_order.specs.Woven.{Weaving, WovenLine, WovenThere, IsOrder, IsWoven};
ghost use Rattle.round_order.specs.Rising.{PlacesRise};
ghost use Rattle.round_order.specs.Turns.{TurnsWeave};
ghost use Rattle.round_order.specs.Home.{Opening, Closing};
ghost use Rattle.round_order.specs.Growth.{RoundBegins, PrivateMoves, TouchMoves, ReadMoves};
ghost use Rattle.round_order.specs.PartMoves.{Takes, Emits, EndsPacket, HearsTime, HearsWord};
ghost use Rattle.round_order.specs.PartMoves.{TouchesHome, ReadsHome};

/// Receipts that are linked from a run weave into a legal continuation of it, in any order that keeps those of each
/// thread in theirs and in which the logged ones rise in weight. It has exactly their moves and entries, with their
/// stamps. The woven list is such an order, and there is one.
pub fn receipts_weave<X>()
    ensures weave { Weaving X }
    ensures woven { (rs : Receipts X) (order : List (Receipt X)) → IsWoven rs order
        → IsOrder rs order }
    ensures there { WovenThere X }
    ensures one { (rs : Receipts X) (order other : List (Receipt X)) → IsWoven rs order
        → IsWoven rs other → order ≡ other }
{}

/// The places that a thread finds rise: a touch that it makes later has a higher place than what it touched or read of
/// the variable before, and a read that it makes later is after no lesser one.
pub fn places_rise<X>()
    ensures { PlacesRise X }
{}

/// Linked receipts are woven in the turns that their marks tell, each the newest that is left of its thread. These are
/// the turns that `weave` answers.
pub fn turns_weave<X>()
    ensures { TurnsWeave X }
{}

/// The woven list is in the order in which a run is finished after a crash: its entries stand by weight, then thread,
/// each after the moves of its thread that lead to it.
pub fn woven_rounds_are_lines<X>()
    ensures { WovenLine X }
{}

/// When a round begins, what is at home of each variable and what each thread has are the parts of its master, and what
/// holds between any two moves holds.
pub fn rounds_open<X>()
    ensures parts { Opening X }
    ensures begins { RoundBegins X }
{}

/// What holds between any two moves of a round is kept by the next one, which its thread makes with what it has and
/// what it found: by a move on no variable, by a touch of what is at home of a variable, and by a read of it. The
/// thread then has what the move left, the touched or read variable comes home as after it, and all else stays.
pub fn rounds_grow<X>()
    ensures private { PrivateMoves X }
    ensures touch { TouchMoves X }
    ensures read { ReadMoves X }
{}

/// What a thread does with its own part, and with that of the variable that it has taken, is its next move: the
/// receipts made of these parts meet what `rounds_grow` asks, and both parts are left as a master leaves them.
pub fn parts_make_moves<X>()
    ensures take { Takes X }
    ensures emit { Emits X }
    ensures end { EndsPacket X }
    ensures clock { HearsTime X }
    ensures draw { HearsWord X }
    ensures touch { TouchesHome X }
    ensures read { ReadsHome X }
{}

/// At the end of a round, what is at home and what each thread has make a master that stands for the woven list.
pub fn rounds_close<X>()
    ensures { Closing X }
{}
