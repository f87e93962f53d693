//! The laws of the box's runs. Each is proved, and does nothing: a caller has it by the call.
ghost use Rattle.nat_box.specs.PortStanding.{PortsStand};
ghost use Rattle.nat_box.specs.Sentences.{EntriesStand};
ghost use Rattle.nat_box.specs.Emissions.{EmissionsTranslate};

/// After each move of each run, whatever its threads, its inputs and the order of its moves, each port of the range
/// stands, per protocol, in exactly one place: free, in one forward entry, or with one packet in hand. It has a reverse
/// entry exactly where a forward entry has it, or a packet in hand that has bound it and not unbound it. So no port is
/// overloaded (RFC 4787, REQ-3).
pub fn ports_stand_in_one_place()
    ensures { PortsStand }
{}

/// So each forward entry has its reverse entry, no port stands for two inside endpoints, an endpoint has at most one
/// mapping, and each reverse entry belongs to a forward entry or to a packet in hand that stands between. The mapping
/// is of the inside endpoint alone (RFC 4787, REQ-1).
pub fn entries_stand_for_one_endpoint()
    ensures { EntriesStand }
{}

/// What goes out of a run on packets of bytes is the translation (RFC 3022, section 4.1) of the thread's input of that
/// number: an outbound packet with the port that its source was mapped to at its last find or find-or-bind, an inbound
/// packet to an endpoint whose mapping to its port lived at its last read, at the time that it was told, and a hairpin
/// both (RFC 4787, REQ-9). An inbound packet reads, so it refreshes nothing (REQ-6). What goes out of an error of ICMP
/// is the error with the quoted packet's translation undone: an inbound one goes to the endpoint whose mapping lived,
/// from which the quoted packet came (RFC 5508, REQ-4); an outbound one comes from the outside address, to which and to
/// whose port that lived the quoted packet went (REQ-5).
pub fn emissions_are_translations()
    ensures { EmissionsTranslate }
{}
