//! Two systems in a chain, over the definitions alone: what the first releases is the capture of the second. However
//! their events are mixed, each system promises just what it does alone. The law is proved, and does nothing: a caller
//! has it by the call.
#![tactic(auto)]

ghost use Rattle.std.specs.Prelude.{◌≡◌, ◌⊎◌, ◌++◌, ℕ, List};
ghost use Rattle.plain_text.specs.declared.limit.Limit.{Limit};
ghost use Rattle.plain_text.specs.declared.packet.Packet.{Packet};
ghost use Rattle.plain_machine.specs.declared.plain_move.PlainMove.{PlainMove};
ghost use Rattle.plain_machine.specs.History.{Step};
ghost use Rattle.recovery_world.specs.declared.event.Outcome.{Outcome};
ghost use Rattle.recovery_world.specs.World.{Setting, Sent, opening};
ghost use Rattle.recovery_world.specs.Limits.{IsWithin};
ghost use Rattle.recovery_world.specs.Finish.{IsFinish};
ghost use Rattle.recovery_world.specs.Files.{Performs, packets_of};
ghost use Rattle.recovery_laws.specs.Sound.{Sound};
ghost use Rattle.longer_captures.specs.Longer.{IsPerformed};
ghost use Rattle.chain_world.specs.declared.chain_event.ChainEvent.{ChainEvent as EventOfChain};
ghost use Rattle.chain_world.specs.Chain.{Chained, chain_opening, behind, events_of, OnChain};
ghost use Rattle.chain_world.specs.Chain.{PerformsChain, LeavesChain, StopsChain};
ghost use Rattle.chain_world.specs.Promise.{KeepsBoth};

mod chain_event;

pub use chain_event::ChainEvent;

/// However the events of two systems in a chain are mixed, both worlds are sound, the first is that
/// of its own events alone, and the second is one to which a script leads on all that the first has
/// released in the end. So both keep the promise of a system alone: the first on the capture, and
/// the second on what the first released.
pub fn chains_keep_both_promises<X, Y>()
    ensures sound { (s : Setting X) (r : Setting Y) (events : List EventOfChain) (lines : List ℕ)
        (c : Chained X Y) → PerformsChain s r (chain_opening X Y) events lines c
        → Sound s c.first × Sound (behind r c.first) c.second }
    ensures first { (s : Setting X) (r : Setting Y) (events : List EventOfChain) (lines : List ℕ)
        (c : Chained X Y) → PerformsChain s r (chain_opening X Y) events lines c
        → (said : List ℕ) × Performs s (opening X) (events_of 1 events) said c.first }
    ensures second { (s : Setting X) (r : Setting Y) (events : List EventOfChain) (lines : List ℕ)
        (c : Chained X Y) → PerformsChain s r (chain_opening X Y) events lines c
        → IsPerformed (behind r c.first) c.second }
    ensures ends { (s : Setting X) (r : Setting Y) (events : List EventOfChain) (lines : List ℕ)
        (c : Chained X Y) → PerformsChain s r (chain_opening X Y) events lines c
        → ((steps : List (Step X)) × IsFinish s c.first steps)
        × ((steps : List (Step Y)) × IsFinish (behind r c.first) c.second steps) }
    ensures promise { (s : Setting X) (r : Setting Y) (events : List EventOfChain)
        (report : List ℕ) (middle released : List Packet)
        (first_moves second_moves : List PlainMove)
        → LeavesChain s r events report middle released first_moves second_moves
        → KeepsBoth s r events middle released first_moves second_moves }
{}

/// What a chain passes on stays: each event adds packets behind those that the first system
/// released before, and behind those that the second did, or none.
pub fn chains_add_behind<X, Y>()
    ensures middle { (s : Setting X) (r : Setting Y) (c : Chained X Y) (ev : EventOfChain)
        (to : Outcome) (freed : List Sent) (new : Chained X Y) → OnChain s r c ev to freed new
        → (more : List Packet)
        × (packets_of new.first.released ≡ packets_of c.first.released ++ more) }
    ensures released { (s : Setting X) (r : Setting Y) (c : Chained X Y) (ev : EventOfChain)
        (to : Outcome) (freed : List Sent) (new : Chained X Y) → OnChain s r c ev to freed new
        → (more : List Packet)
        × (packets_of new.second.released ≡ packets_of c.second.released ++ more) }
{}

/// A chain comes to one thing. From worlds to which its events lead, each event of one of its
/// systems is performed or stops at a limit, in one way, and never both. And the files that its
/// events leave are each one.
pub fn chains_come_to_one_thing<X, Y>()
    ensures something { (s : Setting X) (r : Setting Y) (events : List EventOfChain)
        (lines : List ℕ) (c : Chained X Y) (ev : EventOfChain)
        → PerformsChain s r (chain_opening X Y) events lines c → IsWithin c.first
        → IsWithin c.second → (ev.which ≡ 1) ⊎ (ev.which ≡ 2)
        → ((to : Outcome) × (freed : List Sent) × (new : Chained X Y)
        × OnChain s r c ev to freed new)
        ⊎ ((limit : Limit) × (new : Chained X Y) × StopsChain s r c ev limit new) }
    ensures performed { (s : Setting X) (r : Setting Y) (events : List EventOfChain)
        (lines : List ℕ) (c : Chained X Y) (ev : EventOfChain) (to other : Outcome)
        (freed rest : List Sent) (new next : Chained X Y)
        → PerformsChain s r (chain_opening X Y) events lines c → OnChain s r c ev to freed new
        → OnChain s r c ev other rest next → (to ≡ other) × (freed ≡ rest) × (new ≡ next) }
    ensures stopped { (s : Setting X) (r : Setting Y) (events : List EventOfChain) (lines : List ℕ)
        (c : Chained X Y) (ev : EventOfChain) (limit other : Limit) (new next : Chained X Y)
        → PerformsChain s r (chain_opening X Y) events lines c → StopsChain s r c ev limit new
        → StopsChain s r c ev other next → (limit ≡ other) × (new ≡ next) }
    ensures not_both { (s : Setting X) (r : Setting Y) (events : List EventOfChain)
        (lines : List ℕ) (c : Chained X Y) (ev : EventOfChain) (limit : Limit) (to : Outcome)
        (freed : List Sent) (new next : Chained X Y)
        → PerformsChain s r (chain_opening X Y) events lines c → StopsChain s r c ev limit new
        → OnChain s r c ev to freed next → ⊥ }
    ensures files { (s : Setting X) (r : Setting Y) (events : List EventOfChain)
        (report other : List ℕ) (middle mid released rest : List Packet)
        (first moves second steps : List PlainMove)
        → LeavesChain s r events report middle released first second
        → LeavesChain s r events other mid rest moves steps
        → (report ≡ other) × (middle ≡ mid) × (released ≡ rest) × (first ≡ moves)
        × (second ≡ steps) }
{}
