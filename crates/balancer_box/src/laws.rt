//! The laws of the box's runs. Each is proved, and does nothing: a caller has it by the call.
ghost use Rattle.std.specs.Prelude.{ℕ, List, ◌≤◌, length};
ghost use Rattle.balancer_box.specs.Loads.{least_loaded, HasLeastLoad};
ghost use Rattle.balancer_box.specs.Charges.{LoadsAreCharges};
ghost use Rattle.balancer_box.specs.Entries.{ConnectionsKeepBackends};
ghost use Rattle.balancer_box.specs.Emissions.{EmissionsFollowConnections};

/// After each move of each run, whatever its threads, its inputs and the order of its moves, the load of each backend
/// is its charge: the connections of all tables that name it and have not ended, and the packets in hand that have
/// added to its load and neither connected nor lowered it again, or that have removed or ended a connection of it and
/// not lowered the load yet. All is modulo 2^64.
pub fn loads_are_charges()
    ensures { LoadsAreCharges }
{}

/// The backend that is chosen has the least load of all, and no backend before it has it.
pub fn chosen_backends_have_least_load()
    ensures { (loads : List ℕ) → 1 ≤ length loads → HasLeastLoad loads (least_loaded loads) }
{}

/// After each move of each run a connection is there with the backend that it had before the move, or gone.
pub fn connections_keep_their_backends()
    ensures { ConnectionsKeepBackends }
{}

/// What goes out of a run on packets of bytes is the translation (RFC 3022, section 4.1) of the thread's input of that
/// number. A client's packet goes to the backend that its connection named at the packet's last touch of the table. An
/// answer comes from the virtual address and port, and goes to a client whose connection to the answer's backend was
/// there, and live, at that touch, at the time that the packet was told.
pub fn emissions_follow_connections()
    ensures { EmissionsFollowConnections }
{}
