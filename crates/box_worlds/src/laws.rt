//! The laws of the boxes in all worlds. Each is proved, and does nothing: a caller has it by the
//! call.
ghost use Rattle.std.specs.Prelude.{◌≡◌, ℕ, ◌+◌, ◌%◌, ◌^◌, ◌<◌, ◌≤◌, All, max, sum, List, []};
ghost use Rattle.std.specs.Prelude.{◌∷◌, ◌++◌, length, true, Some};
ghost use Rattle.plain_text.specs.Octets.{IsOfBytes};
ghost use Rattle.plain_text.specs.declared.packet.Packet.{Packet};
ghost use Rattle.plain_machine.specs.declared.plain_move.PlainMove.{PlainMove};
ghost use Rattle.plain_machine.specs.History.{Step, thread_after, value_after, IsHistory};
ghost use Rattle.plain_machine.specs.Agree.{IsEarlier, SendsAfter};
ghost use Rattle.tagged_box.specs.Tags.{steps_behind};
ghost use Rattle.recovery_world.specs.declared.event.Event.{Event};
ghost use Rattle.recovery_world.specs.declared.event.Event.TheVariants.{Settle, Flow};
ghost use Rattle.recovery_world.specs.declared.event.Outcome.{Outcome};
ghost use Rattle.recovery_world.specs.World.{Setting, Sent, World, inputs_fed, all_inputs};
ghost use Rattle.recovery_world.specs.Events.{IsAmong};
ghost use Rattle.recovery_world.specs.Finish.{IsFinish};
ghost use Rattle.recovery_world.specs.Many.{OnAny};
ghost use Rattle.recovery_world.specs.Files.{Leaves};
ghost use Rattle.nat_box.specs.declared.settings.StaticPort.{StaticPort};
ghost use Rattle.nat_box.specs.declared.value.NatValue.{NatValue};
ghost use Rattle.nat_box.specs.declared.settings.NatSettings.{NatSettings};
ghost use Rattle.nat_box.specs.Statics.{kept, IsStatic};
ghost use Rattle.nat_box.specs.Sentences.{HaveOneEndpoint, HaveOneMapping};
ghost use Rattle.nat_box.specs.PortStanding as ports;
ghost use Rattle.nat_box.specs.PortStanding.{in_values, free_at, mapped_at, maps, places_of};
ghost use Rattle.nat_tables.specs.declared.entries.Endpoint.{Endpoint};
ghost use Rattle.nat_tables.specs.declared.entries.PortKey.{PortKey};
ghost use Rattle.nat_runs.specs.StaticPorts.{Stands};
ghost use Rattle.nat_runs.specs.Limits.{mappings_of, statics_of};
ghost use Rattle.nat_runs.specs.Passing.{drops_in};
ghost use Rattle.balancer_box.specs.declared.value.BalancerValue.{BalancerValue};
ghost use Rattle.balancer_box.specs.declared.settings.BalancerSettings.{BalancerSettings};
ghost use Rattle.balancer_box.specs.Charges as charges;
ghost use Rattle.balancer_box.specs.Charges.{load_in, connections_of, IsCharged};
ghost use Rattle.balancer_runs.specs.Packets.{drop_counts};
ghost use Rattle.box_worlds.specs.Worlds.{IsLedTo, IsOfWorld};
ghost use Rattle.box_worlds.specs.Boxes.{IsNat, IsBalancer};
ghost use Rattle.box_worlds.specs.Outcomes.{LeftOrCounted};
ghost use Rattle.box_worlds.specs.Drops.{DropsAreCaused, NatCause, BalancerCause};
ghost use Rattle.box_worlds.specs.EachOutcome.{EachHasOneOutcome};
ghost use Rattle.box_worlds.specs.Releases.{IsMadeOfInput, Translated, SentOn};

/// The histories in a world are crash-free histories of the box, on the packets that were fed,
/// whatever crashed and whatever was late or lost before. So a law that holds of every history of
/// the box, on any inputs, holds of each of them: of what the master did (`past`); of the stored
/// snapshot and of the one under way, which are earlier parts of it (`stored`, `copied`); of each
/// run in which the world ends (`ends`); and of each of these at each earlier moment (`moments`).
/// One run in which the world ends sends all packets that were released (`released`).
pub fn histories_hold_over_crashes<X>()
    ensures past { (s : Setting X) (w : World X) → IsLedTo s w
        → IsHistory s.meaning (inputs_fed s w.fed) s.threads w.past }
    ensures stored { (s : Setting X) (w : World X) → IsLedTo s w → IsEarlier w.stored w.past
        × IsHistory s.meaning (inputs_fed s w.fed) s.threads w.stored }
    ensures copied { (s : Setting X) (w : World X) (copy : List (Step X)) → IsLedTo s w
        → w.copy ≡ Some copy → IsEarlier copy w.past
        × IsHistory s.meaning (inputs_fed s w.fed) s.threads copy }
    ensures ends { (s : Setting X) (w : World X) (steps : List (Step X)) → IsLedTo s w
        → IsFinish s w steps → IsHistory s.meaning (inputs_fed s w.fed) s.threads steps }
    ensures moments { (s : Setting X) (w : World X) (steps part : List (Step X)) → IsLedTo s w
        → IsOfWorld s w steps → IsEarlier part steps
        → IsHistory s.meaning (inputs_fed s w.fed) s.threads part }
    ensures released { (s : Setting X) (w : World X) → IsLedTo s w → (run : List (Step X))
        × IsFinish s w run
        × ((o : Sent) → IsAmong o w.released → SendsAfter run o.emission o.after) }
{}

/// In each world that a script leads to, the tables of the NAT's master, and those of its snapshots
/// and of the runs in which the world ends: an outside port of a protocol stands for one inside
/// endpoint, so none is overloaded (RFC 4787, REQ-3); an inside endpoint has one mapping; each
/// static port stands as the box file says; and no host has more mappings of a protocol than its
/// limit, or than it has static ports (RFC 6888, REQ-4). Each port of the range, and each static
/// one, stands in exactly one place: free, in one mapping, or with one packet in hand (`ports`). So
/// after a script that ends in a settling it is free or in one mapping (`settled_ports`).
pub fn nat_tables_hold_over_crashes()
    ensures one_endpoint { (n : NatSettings) (s : Setting NatValue) (w : World NatValue)
        (steps : List (Step NatValue)) → IsNat n s → IsLedTo s w → IsOfWorld s w steps
        → HaveOneEndpoint n (value_after s.meaning steps) }
    ensures one_mapping { (n : NatSettings) (s : Setting NatValue) (w : World NatValue)
        (steps : List (Step NatValue)) → IsNat n s → IsLedTo s w → IsOfWorld s w steps
        → HaveOneMapping n (value_after s.meaning steps) }
    ensures static_ports { (n : NatSettings) (s : Setting NatValue) (w : World NatValue)
        (steps : List (Step NatValue)) (p : StaticPort) → IsNat n s → IsLedTo s w
        → IsOfWorld s w steps → IsStatic p (kept n.statics)
        → Stands n (value_after s.meaning steps) p }
    ensures limits { (n : NatSettings) (s : Setting NatValue) (w : World NatValue)
        (steps : List (Step NatValue)) (most protocol address : ℕ) → IsNat n s → IsLedTo s w
        → IsOfWorld s w steps → n.limit ≡ Some most
        → mappings_of n (value_after s.meaning steps) protocol address
        ≤ max most (statics_of protocol address (kept n.statics)) }
    ensures ports { (n : NatSettings) (s : Setting NatValue) (w : World NatValue)
        (steps : List (Step NatValue)) (port : PortKey) (key : Endpoint) → IsNat n s
        → IsLedTo s w → IsOfWorld s w steps
        → ports.Stands n s.threads (steps_behind s.tags steps) port key }
    ensures settled_ports { (n : NatSettings) (s : Setting NatValue) (events : List Event)
        (report : List ℕ) (released : List Packet) (schedule : List PlainMove) (port : PortKey)
        → IsNat n s → (l : Leaves s (events ++ Settle ∷ []) report released schedule)
        → in_values n (free_at port) (value_after s.meaning l.steps)
        + in_values n (mapped_at (maps port)) (value_after s.meaning l.steps)
        ≡ places_of n port }
{}

/// In each world that a script leads to, the load of each of the balancer's backends is its charge,
/// modulo 2^64: the connections of all tables that name it and have not ended, and what packets in
/// hand owe it (`charges`). So after a script that ends in a settling it is the number of these
/// connections (`settled`).
pub fn balancer_loads_hold_over_crashes()
    ensures charges { (b : BalancerSettings) (s : Setting BalancerValue) (w : World BalancerValue)
        (steps : List (Step BalancerValue)) (backend : ℕ) → IsBalancer b s → IsLedTo s w
        → IsOfWorld s w steps → backend < length b.backends
        → IsCharged b s.threads backend (value_after s.meaning steps)
        (thread_after (steps_behind s.tags steps)) }
    ensures settled { (b : BalancerSettings) (s : Setting BalancerValue) (events : List Event)
        (report : List ℕ) (released : List Packet) (schedule : List PlainMove) (backend : ℕ)
        → IsBalancer b s → backend < length b.backends
        → (l : Leaves s (events ++ Settle ∷ []) report released schedule)
        → load_in backend (value_after s.meaning l.steps 1)
        ≡ charges.in_values b (connections_of backend) (value_after s.meaning l.steps) % 2 ^ 64 }
{}

/// Each packet that was released, in each world that a script leads to and of packets of bytes, is
/// the NAT's translation (RFC 3022, section 4.1) of the input that it names, in each run in which
/// the world ends; and of the balancer, that input on its way to its connection's backend, or back
/// to its client.
pub fn released_packets_are_translations()
    ensures nat { (n : NatSettings) (s : Setting NatValue) (w : World NatValue) (o : Sent)
        (run : List (Step NatValue)) → IsNat n s → All IsOfBytes s.packets → IsLedTo s w
        → IsAmong o w.released → IsFinish s w run → IsMadeOfInput s w o (Translated n) run }
    ensures balancer { (b : BalancerSettings) (s : Setting BalancerValue) (w : World BalancerValue)
        (o : Sent) (run : List (Step BalancerValue)) → IsBalancer b s → All IsOfBytes s.packets
        → IsLedTo s w → IsAmong o w.released → IsFinish s w run
        → IsMadeOfInput s w o (SentOn b) run }
{}

/// Each drop that is counted in a world that a script leads to, and of packets of bytes, is one of
/// an input that has a cause for it, in what it met: a drop of the master, of its snapshots and of
/// each run in which the world ends.
pub fn drops_have_causes_over_crashes()
    ensures nat { (n : NatSettings) (s : Setting NatValue) (w : World NatValue)
        (steps : List (Step NatValue)) → IsNat n s → All IsOfBytes s.packets → IsLedTo s w
        → IsOfWorld s w steps → DropsAreCaused s w (NatCause n) steps }
    ensures balancer { (b : BalancerSettings) (s : Setting BalancerValue) (w : World BalancerValue)
        (steps : List (Step BalancerValue)) → IsBalancer b s → All IsOfBytes s.packets
        → IsLedTo s w → IsOfWorld s w steps → DropsAreCaused s w (BalancerCause b) steps }
{}

/// A script that ends in a settling, whatever came before it: each packet of the capture was
/// released exactly once and never counted as dropped, or was counted exactly once and not
/// released, in the run in which the world ends. So of each thread, the packets that were released
/// and those that it counted are all its inputs (`nat`, `balancer`). A flow, in each world that a
/// script leads to and whose master is up, leaves this of all packets that came in until its end,
/// by what the master has counted (`nat_flow`, `balancer_flow`). And the packets of the
/// released capture, and those that the box's own counts of drops have, are all packets of the
/// capture, modulo 2^64 (`nat_counts`, `balancer_counts`).
pub fn settled_packets_left_or_were_counted()
    ensures nat { (n : NatSettings) (s : Setting NatValue) (events : List Event)
        (report : List ℕ) (released : List Packet) (schedule : List PlainMove) → IsNat n s
        → (l : Leaves s (events ++ Settle ∷ []) report released schedule)
        → LeftOrCounted s.threads (all_inputs s) l.world.released l.steps }
    ensures balancer { (b : BalancerSettings) (s : Setting BalancerValue) (events : List Event)
        (report : List ℕ) (released : List Packet) (schedule : List PlainMove) → IsBalancer b s
        → (l : Leaves s (events ++ Settle ∷ []) report released schedule)
        → LeftOrCounted s.threads (all_inputs s) l.world.released l.steps }
    ensures nat_flow { (n : NatSettings) (s : Setting NatValue) (w new : World NatValue)
        (count : ℕ) (to : Outcome) (freed : List Sent) → IsNat n s → IsLedTo s w → w.up ≡ true
        → OnAny s w (Flow count) to freed new
        → LeftOrCounted s.threads (inputs_fed s new.fed) new.released new.past }
    ensures balancer_flow { (b : BalancerSettings) (s : Setting BalancerValue)
        (w new : World BalancerValue) (count : ℕ) (to : Outcome) (freed : List Sent)
        → IsBalancer b s → IsLedTo s w → w.up ≡ true → OnAny s w (Flow count) to freed new
        → LeftOrCounted s.threads (inputs_fed s new.fed) new.released new.past }
    ensures nat_counts { (n : NatSettings) (s : Setting NatValue) (events : List Event)
        (report : List ℕ) (released : List Packet) (schedule : List PlainMove) → IsNat n s
        → 1 ≤ s.threads → (l : Leaves s (events ++ Settle ∷ []) report released schedule)
        → (length released + drops_in (value_after s.meaning l.steps 0)) % 2 ^ 64
        ≡ length s.packets % 2 ^ 64 }
    ensures balancer_counts { (b : BalancerSettings) (s : Setting BalancerValue)
        (events : List Event) (report : List ℕ) (released : List Packet)
        (schedule : List PlainMove) → IsBalancer b s → 1 ≤ s.threads
        → (l : Leaves s (events ++ Settle ∷ []) report released schedule)
        → (length released + sum (drop_counts (value_after s.meaning l.steps 0))) % 2 ^ 64
        ≡ length s.packets % 2 ^ 64 }
{}

/// A script that ends in a settling, whatever came before it, on packets of bytes: each packet of
/// the capture was released exactly once, as the box translates it, and never counted as dropped;
/// or it was counted exactly once, for a cause that it has, and never released.
pub fn each_packet_has_one_outcome()
    ensures nat { (n : NatSettings) (s : Setting NatValue) (events : List Event)
        (report : List ℕ) (released : List Packet) (schedule : List PlainMove) → IsNat n s
        → All IsOfBytes s.packets
        → (l : Leaves s (events ++ Settle ∷ []) report released schedule)
        → EachHasOneOutcome s l.world l.steps (Translated n) (NatCause n) }
    ensures balancer { (b : BalancerSettings) (s : Setting BalancerValue) (events : List Event)
        (report : List ℕ) (released : List Packet) (schedule : List PlainMove) → IsBalancer b s
        → All IsOfBytes s.packets
        → (l : Leaves s (events ++ Settle ∷ []) report released schedule)
        → EachHasOneOutcome s l.world l.steps (SentOn b) (BalancerCause b) }
{}
