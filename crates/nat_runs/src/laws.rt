//! The laws on every run of the box. Each is proved, and does nothing: a caller has it by the call.
ghost use Rattle.nat_runs.specs.Passing.{EachPasses, NoneVanishes, NoneVanishesAtRest};
ghost use Rattle.nat_runs.specs.GivingWay.{IdleGiveWay};
ghost use Rattle.nat_runs.specs.Parity.{NewHaveParity};
ghost use Rattle.nat_runs.specs.Staying.{MappingsStay};
ghost use Rattle.nat_runs.specs.Following.{FollowedByTheLine, NoneFollowedWithoutIt};
ghost use Rattle.nat_runs.specs.Following.{TouchesAsBefore, BeginsAsBefore, HostsFollow};
ghost use Rattle.nat_runs.specs.Live.{ComesInByLive};
ghost use Rattle.nat_runs.specs.Causes.{DropsHaveCauses};
ghost use Rattle.nat_runs.specs.Reasons.{ReasonsStand};
ghost use Rattle.nat_runs.specs.Inbound.{InboundChangesNoTable};
ghost use Rattle.nat_runs.specs.Refreshing.{HostsRefresh, SentRefresh};
ghost use Rattle.nat_runs.specs.StaticPorts.{StaticPortsStay, NoneIsDropped, OnlyTheyAreKept};
ghost use Rattle.nat_runs.specs.StaticPorts.{NoneGoingOutIsDropped, OnlyTheyStart};
ghost use Rattle.nat_runs.specs.StaticPorts.{MovesAreTheSame, NoneStartsWithoutThem};
ghost use Rattle.nat_runs.specs.Errors.{BeginsByFlow, SendsByFlow, NoneFindsPort};
ghost use Rattle.nat_runs.specs.Errors.{OtherMovesAreTheSame};
ghost use Rattle.nat_runs.specs.FullHosts.{DrawsHadRoom};
ghost use Rattle.nat_runs.specs.Networks.{SentByClass, CountedByClass, MappingsAreInside};
ghost use Rattle.nat_runs.specs.Quotes.{QuotedSourceKeeps, QuotedDestKeeps};
ghost use Rattle.nat_runs.specs.Limits.{HostsKeepWithin, TouchesWithoutLimit, TablesWithoutLimit};

/// After each move of each run, whatever its threads, its inputs and the order of its moves: each packet that a thread
/// took was sent out once, or counted once as dropped, or is the one in hand and neither yet (`each`). So over all
/// threads the packets taken are those sent out, those that variable 0 counts, and those in hand (`always`); with no
/// packet in hand, those sent out and those counted (`at_rest`). The counts wrap at 2^64.
pub fn no_packet_vanishes()
    ensures each { EachPasses }
    ensures always { NoneVanishes }
    ensures at_rest { NoneVanishesAtRest }
{}

/// Idle mappings give way, at each touch of a forward table by a packet from inside, at the time that it was told. When
/// it looks for its mapping, before it draws a word, it leaves no mapping of its own endpoint that was idle; and where
/// its endpoint had none, and one of the table was idle that may give way to it, one that was idle is gone. Where hosts
/// have a limit, and its own has reached it, only those of this host may. Each mapping of its endpoint that it leaves
/// was last used at this time, or it was there and was used later.
pub fn idle_mappings_give_way()
    ensures { IdleGiveWay }
{}

/// A mapping that a step makes has the parity of its inside port, if a port of this parity and of its protocol was free
/// when the step's packet touched the pool (RFC 4787, REQ-4).
pub fn new_mappings_keep_parity()
    ensures { NewHaveParity }
{}

/// At each step each mapping stays, with its port, or it was idle at the time that the packet was told: not used for
/// 300 s of UDP (RFC 4787, REQ-5), for 7,440 s of TCP, or for the box's own number of seconds, of a TCP connection that
/// is followed and not established, or was ended (RFC 5382, REQ-5). One of a static port is never idle. So an inside
/// endpoint that goes on has the
/// same port toward every remote endpoint (RFC 4787, REQ-1).
pub fn mappings_stay_until_idle()
    ensures { MappingsStay }
{}

/// Each mapping whose connection is followed is of TCP, and has the box's number of seconds (`by_the_line`). Where the
/// box has none, no connection is followed, so each mapping is kept as its protocol says, or for good
/// (`none_without_it`); each touch is that of the table of moves, or of the limit, alone (`touches`), and no segment is
/// noted (`begins`). The phase of a mapping changes by a packet from its own inside endpoint alone, and as the control
/// bits of this packet say (`hosts`).
pub fn connections_are_followed_by_the_line()
    ensures by_the_line { FollowedByTheLine }
    ensures none_without_it { NoneFollowedWithoutIt }
    ensures touches { TouchesAsBefore }
    ensures begins { BeginsAsBefore }
    ensures hosts { HostsFollow }
{}

/// What goes back inside, of an inbound or a hairpin packet (RFC 4787, REQ-9), goes to an endpoint that has a mapping
/// to the packet's port, and this mapping is live: it was used less than 300 s of UDP, 7,440 s of TCP before the
/// time that the packet was told. So does each error of ICMP that is sent out: of an inbound one the mapping is of the
/// endpoint from which the quoted packet came (RFC 5508, REQ-4), of an outbound one that to which it went (REQ-5).
pub fn what_comes_in_found_a_live_mapping()
    ensures { ComesInByLive }
{}

/// Each drop that is counted has the cause of its reason: the frame is no flow (1 to 6), or a stray (9); its endpoint
/// had no mapping or an idle one, and no port of its protocol was free (8); nothing was bound to the port that it goes
/// to, or only an idle mapping (7); its host had as many mappings of its protocol as it may have, and its endpoint none
/// (10). A packet that is dropped for this last reason changed nothing before, so it took no port and nobody's mapping
/// went; or it drew a word, and then another packet of its host was quicker. So what comes to a port with a used
/// mapping is let in, whatever its source (RFC 4787, REQ-8, endpoint-independent filtering). An error of ICMP is a
/// stray where it is about no packet that the box may have translated, and else found no used mapping.
pub fn drops_have_their_causes()
    ensures { DropsHaveCauses }
{}

/// When a packet is counted as dropped, the reason for which it is counted stands in register 6 of its thread, and its
/// next move is its end: so a trace tells the reason that was counted.
pub fn traced_reasons_are_those_counted()
    ensures { ReasonsStand }
{}

/// A step of an inbound packet leaves each table and the pool as they were: it refreshes no mapping (RFC 4787, REQ-6).
/// So does a step of an error of ICMP, whatever its direction (RFC 5508, REQ-6).
pub fn inbound_packets_change_no_table()
    ensures { InboundChangesNoTable }
{}

/// A mapping is made, and refreshed, by packets from its own inside endpoint alone (`hosts`); and each packet from
/// inside that is sent out has refreshed the mapping of its endpoint at the time that it was told (`sent`): RFC 4787,
/// REQ-6, the outbound refresh.
pub fn hosts_refresh_their_own_mappings()
    ensures hosts { HostsRefresh }
    ensures sent { SentRefresh }
{}

/// After each move of each run, whatever its threads, its inputs and the order of its moves, each static port that
/// counts stands: its inside endpoint is mapped to its outside port, the port's reverse entry names this endpoint, and
/// no other endpoint is mapped to the port (`stay`). An inbound packet to it is never counted as dropped, at any time
/// (`let_in`), nor an outbound one from its inside endpoint, whether ports are free or not (`let_out`). No other
/// mapping is kept for good (`kept`), and at the start no table has anything but theirs (`starts`). The moves are the
/// same whatever static ports there are (`moves`), and with none the variables start with all ports free and with empty
/// tables (`none`).
pub fn static_ports_stay()
    ensures stay { StaticPortsStay }
    ensures let_in { NoneIsDropped }
    ensures let_out { NoneGoingOutIsDropped }
    ensures starts { OnlyTheyStart }
    ensures kept { OnlyTheyAreKept }
    ensures moves { MovesAreTheSame }
    ensures none { NoneStartsWithoutThem }
{}

/// After each move of each run, whatever its threads, its inputs and the order of its moves: where hosts have a limit,
/// no host has more mappings of a protocol, over all tables, than it may have, or than it has static ports (`within`;
/// RFC 6888, REQ-4). A packet draws a word, and then takes a port, only where its host had room when the packet looked
/// for its mapping: fewer mappings of the protocol than it may have, or an idle one of its own, which gives way
/// (`room`). Where hosts have no limit, each touch is that of the table of moves alone, and a mapping stands in the
/// table of its whole endpoint (`touches`, `tables`).
pub fn hosts_keep_within_their_limit()
    ensures within { HostsKeepWithin }
    ensures room { DrawsHadRoom }
    ensures touches { TouchesWithoutLimit }
    ensures tables { TablesWithoutLimit }
{}

/// Where the box has no line for errors of ICMP, each packet begins, and is sent out, as its frame is a flow or none
/// (`begins`, `sends`), and no packet comes to the place of errors that go out (`none`). All other moves are the same
/// with the line and without it (`moves`).
pub fn errors_go_through_by_the_line()
    ensures begins { BeginsByFlow }
    ensures sends { SendsByFlow }
    ensures none { NoneFindsPort }
    ensures moves { OtherMovesAreTheSame }
{}

/// What is sent out, what is dropped and who has a mapping, by the bits of addresses alone and not by the box's own
/// test of one. An address is inside where its leading bits are those of the inside network. Each packet that is sent
/// out is of one of five classes and translated as its class says (`sent`): it goes from inside to an address that is
/// neither inside nor the outside address; or from inside to the outside address, and back inside; or from elsewhere to
/// the outside address, and inside; or, where errors of ICMP go through, it is one from inside about a packet that went
/// inside (RFC 5508, REQ-5), or one from elsewhere to the outside address about a packet that came from there (REQ-4).
/// What goes inside goes to an inside address or to the endpoint of a static port. A packet of a class is never counted
/// as a stray, and one of no class as nothing else (`counted`). Each mapping is of an inside address or of a static
/// port (`mappings`). The inside network is any of 32 bits.
pub fn classes_are_by_the_networks()
    ensures sent { SentByClass }
    ensures counted { CountedByClass }
    ensures mappings { MappingsAreInside }
{}

/// An error of ICMP keeps the checksum of the TCP or UDP packet that it quotes, where it quotes so much, as right or as
/// wrong as it was: over the quoted addresses, what is quoted of that packet, and any bytes of it that are not. A UDP
/// checksum of 0, which says that there is none, stays 0, and no other becomes 0. So it is of errors that come in
/// (`source`; RFC 5508, REQ-4) and of those that go out (`dest`; REQ-5).
pub fn errors_keep_what_they_quote()
    ensures source { QuotedSourceKeeps }
    ensures dest { QuotedDestKeeps }
{}
