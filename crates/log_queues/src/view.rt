//! What an end of a lane knows, the rule of a lane, and what its steps tell. No value of these types is made.
use crossbeam_queue::protocol::{Join, Lesson, Outcome, Protocol, Split};
use std::collections::LinkedList;

/// What an end of a lane may do, what it put, and what it took.
pub struct End<T> {
    pub puts: bool,
    pub takes: bool,
    pub put: LinkedList<T>,
    pub taken: LinkedList<T>,
}

/// What was put is what was taken, and then what the lane holds.
pub struct InOrder;

impl<T> Protocol<T, End<T>> for InOrder {
    ghost use Rattle.std.specs.Prelude.{true, []};
    ghost use Rattle.log_queues.specs.Lanes.{end, Relayed};

    ghost holds = { Relayed };

    ghost first = { end true true [] [] };
}

/// One end becomes two, and two become one.
pub struct Roles;

impl<T> Split<End<T>> for Roles {
    ghost use Rattle.std.specs.Prelude.{true, false, []};
    ghost use Rattle.log_queues.specs.Lanes.{end};

    ghost left = { λ v. end true false v.put [] };

    ghost right = { λ v. end false true [] v.taken };
}

impl<T> Join<End<T>> for Roles {
    ghost use Rattle.std.specs.Prelude.{true, false, []};
    ghost use Rattle.log_queues.specs.Lanes.{end};

    ghost both = { λ v w. end true true v.put w.taken };

    ghost spent = { end false false [] [] };
}

/// One more was put.
pub struct Sent;

impl<T> Outcome<T, End<T>> for Sent {
    ghost use Rattle.std.specs.Prelude.{◌≡◌, ◌++◌, ◌∷◌, []};
    ghost use Rattle.log_queues.specs.Lanes.{end};

    ghost then = { λ v x w. w ≡ end v.puts v.takes (v.put ++ x ∷ []) v.taken };
}

/// What the lane holds is the last of what was put.
impl<T> Lesson<T, End<T>> for Sent {
    ghost use Rattle.log_queues.specs.Lanes.{AreLastOf};

    ghost fact = { λ v items. AreLastOf items v.put };
}

/// One more was taken.
pub struct Got;

impl<T> Outcome<T, End<T>> for Got {
    ghost use Rattle.std.specs.Prelude.{◌≡◌, ◌++◌, ◌∷◌, []};
    ghost use Rattle.log_queues.specs.Lanes.{end};

    ghost then = { λ v x w. w ≡ end v.puts v.takes v.put (v.taken ++ x ∷ []) };
}

impl<T> Lesson<T, End<T>> for Got {
    ghost fact = { λ v items. Unit {0} };
}

/// One more was taken by the end that also knows all that was put; where there is none, all was taken.
pub struct Rest;

impl<T> Outcome<T, End<T>> for Rest {
    ghost use Rattle.std.specs.Prelude.{◌≡◌, ◌++◌, ◌∷◌, []};
    ghost use Rattle.log_queues.specs.Lanes.{end};

    ghost then = { λ v x w. w ≡ end v.puts v.takes v.put (v.taken ++ x ∷ []) };
}

impl<T> Lesson<T, End<T>> for Rest {
    ghost use Rattle.std.specs.Prelude.{◌≡◌, ◌++◌};

    ghost fact = { λ v items. v.put ≡ v.taken ++ items };
}
