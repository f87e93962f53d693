ghost use Rattle.balancer_runs.specs.Answering.{AnswersComeBeforeIdle};
ghost use Rattle.balancer_runs.specs.Packets.{NoPacketVanishes, NoPacketVanishesAtRest};
ghost use Rattle.balancer_runs.specs.Packets.{EachHasOneOutcome};
ghost use Rattle.balancer_runs.specs.Staying.{ConnectionsStay};
ghost use Rattle.balancer_runs.specs.Causes.{DropsHaveCauses};
ghost use Rattle.balancer_runs.specs.Reasons.{ReasonsStand};
ghost use Rattle.balancer_runs.specs.Following.{FollowedByTheLine, NoneFollowedWithoutIt};
ghost use Rattle.balancer_runs.specs.Following.{TouchesAsBefore, BeginsAsBefore, SidesFollow};
ghost use Rattle.balancer_runs.specs.Refreshing.{OnlyClientsRefresh, ClientsRefresh};
ghost use Rattle.balancer_runs.specs.Choosing.{LeastLoadsAreRaised, NewConnectionsHaveLeastLoad};
ghost use Rattle.balancer_runs.specs.GivingWay.{IdleGiveWay};
ghost use Rattle.balancer_runs.specs.Ending.{SidesAreHeard, EndedGiveWay, ResetsRemove};
ghost use Rattle.balancer_runs.specs.Saying.{PhasesAreSaid};
ghost use Rattle.balancer_runs.specs.Serving.{SentAreOfService, StraysAreOfNone};

/// In each run, whatever its threads, its inputs and the order of its moves: each packet that was taken went out, was
/// counted as dropped, or is in hand and neither yet. So where no packet is in hand, the packets taken are those that
/// went out and those that were counted as dropped. All is modulo 2^64. And each packet on which the work ends went out
/// once, or was counted once as dropped.
pub fn no_packet_vanishes()
    ensures moving { NoPacketVanishes }
    ensures at_rest { NoPacketVanishesAtRest }
    ensures each { EachHasOneOutcome }
{}

/// At each step of each run on packets of bytes, a connection that is there stays, with its backend, unless it is idle
/// at the time that the step's packet was told, 7,440 s after its last use with TCP and 300 s with UDP, or this packet
/// resets it. Where connections are followed, no packet resets one; but one that has ended is idle after the box's own
/// number of seconds, and is gone at once when its client opens another. Its last use stays, or becomes that time.
pub fn connections_stay_until_idle_or_reset()
    ensures { ConnectionsStay }
{}

/// In each run on packets of bytes, each touch of the counts of drops counts one drop more, of a packet that has the
/// cause of its reason: its frame is no flow, or it neither goes to the virtual address and port nor comes from a
/// backend, or it is of no connection that lives.
pub fn drops_have_their_causes()
    ensures { DropsHaveCauses }
{}

/// When a packet is counted as dropped, the reason for which it is counted stands in register 8 of its thread, and its
/// next move is its end: so a trace tells the reason that was counted.
pub fn traced_reasons_are_those_counted()
    ensures { ReasonsStand }
{}

/// In each run, a touch of the loads raises that of a backend of least load, the first of equals, or lowers one. And on
/// packets of bytes, a connection that begins is one to the backend that the client's packet chose in its touch of the
/// loads.
pub fn new_connections_have_least_load()
    ensures chosen { LeastLoadsAreRaised }
    ensures bound { NewConnectionsHaveLeastLoad }
{}

/// In each run on packets of bytes, an answer that goes out is one to a client whose connection to the answer's backend
/// was used less than 7,440 s before with TCP, and 300 s with UDP, at the time that the answer was told; or the box's
/// own number of seconds, where it has ended.
pub fn answers_come_before_idle()
    ensures { AnswersComeBeforeIdle }
{}

/// Each connection that notes an end is of TCP, and where it has ended it has the box's number of seconds
/// (`by_the_line`). Where the box has none, no connection is followed, so each is kept as its protocol says
/// (`none_without_it`); each touch is as if there were no such number (`touches`), and nothing is noted of what a
/// packet tells (`begins`). The phase of a connection changes by a packet from its own client or its own backend alone,
/// and as the control bits of this packet say (`sides`).
pub fn connections_are_followed_by_the_line()
    ensures by_the_line { FollowedByTheLine }
    ensures none_without_it { NoneFollowedWithoutIt }
    ensures touches { TouchesAsBefore }
    ensures begins { BeginsAsBefore }
    ensures sides { SidesFollow }
{}

/// At each step of each run on packets of bytes, a connection was last used when it was before the step; or the step's
/// packet is one of its own client to the virtual address and port, and it was used at the time that this packet was
/// told (`only`). So answers refresh nothing. And each touch of a connection table by a packet of a client leaves its
/// own connection, if it leaves one, used at the packet's time or later (`each`).
pub fn clients_refresh_their_own_connections()
    ensures only { OnlyClientsRefresh }
    ensures each { ClientsRefresh }
{}

/// Idle connections give way, in each run on packets of bytes, at each touch of a connection table by a packet of a
/// client, at the time that it was told. In its first touch, in which it looks for its connection, it leaves no
/// connection of its own client that was idle; and where its client had none, and one of the table was idle, one that
/// was idle is gone. No more than one goes. Each connection of its client that it leaves was last used at this time, or
/// it was there and was used later.
pub fn idle_connections_give_way()
    ensures { IdleGiveWay }
{}

/// In each run on packets of bytes: where TCP connections are followed, one has ended exactly where a RST came from
/// either side since it began, or a FIN from each; with FIN from one side it is half closed (`said`). What a side says
/// counts at each touch of a table by a packet of its client, and by one of its backend while it is live (`heard`).
/// A connection that has ended gives way at once to the one that its client opens, by SYN without ACK, FIN and RST, in
/// the first touch of this packet (`gives_way`). Where connections are not followed, RST from the client or from the
/// backend removes a live one (`removed`).
pub fn connections_end_as_both_sides_say()
    ensures said { PhasesAreSaid }
    ensures heard { SidesAreHeard }
    ensures gives_way { EndedGiveWay }
    ensures removed { ResetsRemove }
{}

/// In each run on packets of bytes, each packet that is sent out went to the virtual address and port, or came from the
/// address and port of a backend (`sent`). And each drop that is counted is for the reason that the packet has: 1 to 6
/// where its frame is no flow, 9, a stray, where it is a flow of neither kind, and 7, no connection, where it is of one
/// of them. So a packet to the virtual address and port is never a stray, nor is one from a backend (`strays`).
pub fn what_is_translated_is_of_the_service()
    ensures sent { SentAreOfService }
    ensures strays { StraysAreOfNone }
{}
