//! Laws of the table. Each is proved, and does nothing: a caller has it by the call.
ghost use Rattle.std.specs.Prelude.{◌≡◌, ◌+◌, ℕ, List, Option, Some, length, slice_get};
ghost use Rattle.recovery_world.specs.declared.event.Event.{Event as EventKind};
ghost use Rattle.recovery_world.specs.World.{Setting, World};
ghost use Rattle.noted_runs.specs.declared.trace.rows.Departure as departure_of;
ghost use Rattle.noted_runs.specs.declared.trace.rows.Row as row_of;
ghost use Rattle.noted_runs.specs.Departures.{Departs};
ghost use Rattle.noted_runs.specs.Trace.{Traces};

/// The table has as many rows as packets were fed, in the order of the capture, so that none stands in it twice.
pub fn each_packet_has_one_row<X>()
    ensures count { (register : Option ℕ) (s : Setting X) (events : List EventKind) (w : World X)
        (rows : List row_of.Row) → Traces register s events w rows → length rows ≡ w.fed }
    ensures number { (register : Option ℕ) (s : Setting X) (events : List EventKind) (w : World X)
        (rows : List row_of.Row) → Traces register s events w rows
        → (i : ℕ) (row : row_of.Row) → slice_get rows i ≡ Some row → row.packet ≡ i + 1 }
    ensures once { (register : Option ℕ) (s : Setting X) (events : List EventKind) (w : World X)
        (rows : List row_of.Row) → Traces register s events w rows
        → (i j : ℕ) (one other : row_of.Row) → slice_get rows i ≡ Some one
        → slice_get rows j ≡ Some other → one.packet ≡ other.packet → i ≡ j }
{}

/// Each output that was released left with an event: with just one, in one epoch.
pub fn each_release_has_its_event<X>()
    ensures { (s : Setting X) (events : List EventKind) (departures : List departure_of.Departure)
        (w : World X) → Departs s events departures w → length departures ≡ length w.released }
{}
