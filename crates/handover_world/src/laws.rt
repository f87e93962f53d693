//! The laws of a planned handover, over its definitions alone. Each is proved, and does nothing: a caller has it by the
//! call.
ghost use Rattle.std.specs.Prelude.{◌≡◌, ◌≢◌, ◌≤◌, ◌<◌, ◌⊎◌, ℕ, ◌+◌, ◌^◌, length, List, [], ◌∷◌};
ghost use Rattle.std.specs.Prelude.{◌++◌, ◌↔◌, true, slice_get, Some, Ok, Result, ⊤};
ghost use Rattle.plain_text.specs.declared.limit.Limit.{Limit};
ghost use Rattle.entry_order.specs.Log.{Entry};
ghost use Rattle.plain_machine.specs.Agree.{SendsAfter};
ghost use Rattle.plain_machine.specs.History.{Step, play};
ghost use Rattle.recovery_world.specs.declared.event.Event.{Event};
ghost use Rattle.recovery_world.specs.declared.event.Event.TheVariants.{Snap, Store, Crash};
ghost use Rattle.recovery_world.specs.declared.event.Event.TheVariants.{Recover};
ghost use Rattle.recovery_world.specs.declared.event.Outcome.{Outcome};
ghost use Rattle.recovery_world.specs.World.{Setting, Sent, Ended as EndedEpoch, World, opening};
ghost use Rattle.recovery_world.specs.World.{inputs_fed};
ghost use Rattle.recovery_world.specs.Events.{IsAmong, ended_now};
ghost use Rattle.recovery_world.specs.Files.{Performs, Leaves, LeavesAt, done_line, moves_made};
ghost use Rattle.recovery_world.specs.Files.{packets_of};
ghost use Rattle.recovery_world.specs.Finish.{Reached, IsFinish, IsToCome};
ghost use Rattle.recovery_world.specs.Limits.{IsWithin};
ghost use Rattle.recovery_world.specs.Many.{OnAny, Stops};
ghost use Rattle.recovery_laws.specs.Sound.{Sound};
ghost use Rattle.handover.specs.declared.image.Image.{Image};
ghost use Rattle.handover_world.specs.declared.fault.ResumeError.{ResumeError};
ghost use Rattle.handover_world.specs.declared.fault.ResumeError.TheVariants.{NoMemory};
ghost use Rattle.handover_world.specs.declared.unready.Unready.{Unready};
ghost use Rattle.handover_world.specs.Counted.{IsCounted, HasNoOthers};
ghost use Rattle.handover_world.specs.Faults.{HasNoFault, IsFault};
ghost use Rattle.handover_world.specs.Handing.{ComesToRest};
ghost use Rattle.handover_world.specs.Images.{IsImageOf, IsAtRest};
ghost use Rattle.handover_world.specs.Ready.{IsReadiness};

/// Each sound system has one readiness. It is ready where its master is up, nothing that it follows is to come, and its
/// past has sent out all that was released.
pub fn systems_have_one_readiness<X>()
    ensures there { (s : Setting X) (w : World X) → Sound s w
        → (readiness : Result ⊤ Unready) × IsReadiness w readiness }
    ensures one { (w : World X) (a b : Result ⊤ Unready) → IsReadiness w a → IsReadiness w b
        → a ≡ b }
    ensures ready { (w : World X) → IsReadiness w (Ok tt) ↔ ((w.up ≡ true)
        × ((e : Entry) → IsToCome w e → ⊥)
        × ((o : Sent) → IsAmong o w.released → SendsAfter w.past o.emission o.after)) }
{}

/// A system that is ready comes to rest by four events: a snapshot is made and stored, the master crashes, and a new
/// one recovers. Its past stays, its epoch is over, and what waited is released behind what was.
pub fn ready_worlds_come_to_rest<X>()
    ensures there { (s : Setting X) (w : World X) → Sound s w → IsWithin w
        → (new : World X) × ComesToRest s w new }
    ensures script { (s : Setting X) (w new : World X) (lines : List ℕ)
        → Performs s w (Snap ∷ Store ∷ Crash ∷ Recover ∷ []) lines new → ComesToRest s w new }
    ensures performs { (s : Setting X) (w new : World X) → ComesToRest s w new
        → (lines : List ℕ) × Performs s w (Snap ∷ Store ∷ Crash ∷ Recover ∷ []) lines new }
    ensures rest { (s : Setting X) (w new : World X) → Sound s w → IsReadiness w (Ok tt)
        → ComesToRest s w new → IsAtRest new }
    ensures past { (s : Setting X) (w new : World X) → IsReadiness w (Ok tt)
        → ComesToRest s w new → new.past ≡ w.past }
    ensures epoch { (s : Setting X) (w new : World X) → IsReadiness w (Ok tt)
        → ComesToRest s w new → new.epoch ≡ w.epoch + 1 }
    ensures ended { (s : Setting X) (w new : World X) → IsReadiness w (Ok tt)
        → ComesToRest s w new → new.ended ≡ ended_now w ∷ w.ended }
    ensures released { (s : Setting X) (w new : World X) → IsReadiness w (Ok tt)
        → ComesToRest s w new → new.released ≡ w.released ++ w.waiting }
    ensures none_waits { (s : Setting X) (w new : World X) → IsReadiness w (Ok tt)
        → (rest : ComesToRest s w new) → rest.stored.waiting ≡ [] }
    ensures fed { (s : Setting X) (w new : World X) → IsReadiness w (Ok tt)
        → ComesToRest s w new → (new.fed ≡ w.fed) × (new.clock ≡ w.clock) × (new.drawn ≡ w.drawn) }
    ensures counts { (s : Setting X) (w new : World X) → IsReadiness w (Ok tt)
        → ComesToRest s w new → (new.moves ≡ w.moves) × (new.bytes ≡ w.bytes) }
{}

/// Whatever the events, no more words were drawn than moves made, the moves and bytes of the past are among those
/// counted, and each epoch but the present one has ended. And a thread that there is none of ended each with nothing.
pub fn reached_worlds_are_counted<X>()
    ensures reached { (s : Setting X) (w : World X) → Reached s w → IsCounted w }
    ensures performed { (s : Setting X) (events : List Event) (lines : List ℕ) (w : World X)
        → Performs s (opening X) events lines w → IsCounted w }
    ensures kept { (s : Setting X) (w : World X) (ev : Event) (to : Outcome) (freed : List Sent)
        (new : World X) → Sound s w → IsCounted w → OnAny s w ev to freed new → IsCounted new }
    ensures stopped { (s : Setting X) (w : World X) (ev : Event) (limit : Limit) (new : World X)
        → Sound s w → IsCounted w → Stops s w ev limit new → IsCounted new }
    ensures goes_on { (s : Setting X) (w : World X) (events : List Event) (lines : List ℕ)
        (new : World X) → Sound s w → IsCounted w → Performs s w events lines new → IsCounted new }
    ensures others { (s : Setting X) (w : World X) → Reached s w → HasNoOthers s w }
    ensures others_performed { (s : Setting X) (events : List Event) (lines : List ℕ) (w : World X)
        → Performs s (opening X) events lines w → HasNoOthers s w }
    ensures others_kept { (s : Setting X) (w : World X) (ev : Event) (to : Outcome)
        (freed : List Sent) (new : World X) → Sound s w → HasNoOthers s w
        → OnAny s w ev to freed new → HasNoOthers s new }
    ensures others_stopped { (s : Setting X) (w : World X) (ev : Event) (limit : Limit)
        (new : World X) → Sound s w → HasNoOthers s w → Stops s w ev limit new
        → HasNoOthers s new }
{}

/// The image of a world that events led to, and that is at rest behind a recovery, has no fault: so it is of a ready
/// system that came to rest. Its moves play to the past of the world. And whatever sound world an image without a fault
/// stands for, that world is counted, and within the limits.
pub fn images_of_worlds_have_no_fault<X>()
    ensures counted { (s : Setting X) (w : World X) (image : Image) → Sound s w → IsCounted w
        → IsWithin w → IsAtRest w → IsImageOf s w image → 2 ≤ w.epoch → w.epoch < 2 ^ 32
        → HasNoFault s image }
    ensures reached { (s : Setting X) (w : World X) (image : Image) → Reached s w → IsWithin w
        → IsAtRest w → IsImageOf s w image → 2 ≤ w.epoch → w.epoch < 2 ^ 32
        → HasNoFault s image }
    ensures performed { (s : Setting X) (events : List Event) (lines : List ℕ) (w : World X)
        (image : Image) → Performs s (opening X) events lines w → IsAtRest w → IsImageOf s w image
        → 2 ≤ w.epoch → w.epoch < 2 ^ 32 → HasNoFault s image }
    ensures handed { (s : Setting X) (w new : World X) (image : Image) → Sound s w → IsCounted w
        → IsReadiness w (Ok tt) → ComesToRest s w new → IsImageOf s new image
        → new.epoch < 2 ^ 32 → HasNoFault s image }
    ensures past { (s : Setting X) (w : World X) → Sound s w
        → play s.meaning (inputs_fed s w.fed) s.threads (moves_made w.past) ≡ Ok w.past }
    ensures moves { (s : Setting X) (w : World X) (image : Image) → Sound s w → IsImageOf s w image
        → play s.meaning (inputs_fed s image.fed) s.threads image.past ≡ Ok w.past }
    ensures counted_again { (s : Setting X) (w : World X) (image : Image) → Sound s w
        → IsImageOf s w image → HasNoFault s image → IsCounted w }
    ensures within_again { (s : Setting X) (w : World X) (image : Image) → IsImageOf s w image
        → HasNoFault s image → IsWithin w }
{}

/// An image without a fault stands for a sound world at rest. So the faults are all that can be wrong with an image.
/// And a list of moves that plays has the moves of its history.
pub fn images_stand_for_worlds<X>()
    ensures world { (s : Setting X) (image : Image) → HasNoFault s image
        → (w : World X) × Sound s w × IsAtRest w × IsImageOf s w image }
    ensures moves { (s : Setting X) (image : Image) (steps : List (Step X))
        → play s.meaning (inputs_fed s image.fed) s.threads image.past ≡ Ok steps
        → moves_made steps ≡ image.past }
{}

/// Each image has no fault, or it has one: exactly one of the two. Want of memory aside.
pub fn images_have_one_fault<X>()
    ensures either { (s : Setting X) (image : Image) → HasNoFault s image
        ⊎ ((fault : ResumeError) × (fault ≢ NoMemory) × IsFault s image fault) }
    ensures not_both { (s : Setting X) (image : Image) (fault : ResumeError) → HasNoFault s image
        → IsFault s image fault → fault ≢ NoMemory → ⊥ }
    ensures one { (s : Setting X) (image : Image) (a b : ResumeError) → IsFault s image a
        → IsFault s image b → a ≢ NoMemory → b ≢ NoMemory → a ≡ b }
{}

/// Each counted world has one image. Two sound worlds at rest of one image have one past, one list of released outputs,
/// and the same counts: they differ only in which stored entries are held or followed, and in what threads that there
/// are none of ended epochs with.
pub fn one_image<X>()
    ensures there { (s : Setting X) (w : World X) → IsCounted w
        → (image : Image) × IsImageOf s w image }
    ensures one { (s : Setting X) (w : World X) (a b : Image) → IsImageOf s w a
        → IsImageOf s w b → a ≡ b }
    ensures past { (s : Setting X) (v w : World X) (image : Image) → Sound s v → Sound s w
        → IsImageOf s v image → IsImageOf s w image → v.past ≡ w.past }
    ensures released { (s : Setting X) (v w : World X) (image : Image) → Sound s v → Sound s w
        → IsAtRest v → IsAtRest w → IsImageOf s v image → IsImageOf s w image
        → v.released ≡ w.released }
    ensures fed { (s : Setting X) (v w : World X) (image : Image) → IsImageOf s v image
        → IsImageOf s w image → (v.fed ≡ w.fed) × (v.clock ≡ w.clock) × (v.drawn ≡ w.drawn) }
    ensures counts { (s : Setting X) (v w : World X) (image : Image) → IsImageOf s v image
        → IsImageOf s w image → (v.epoch ≡ w.epoch) × (v.moves ≡ w.moves) × (v.bytes ≡ w.bytes) }
    ensures epochs { (s : Setting X) (v w : World X) (image : Image) → IsImageOf s v image
        → IsImageOf s w image → length v.ended ≡ length w.ended }
    ensures ended { (s : Setting X) (v w : World X) (image : Image) (i t : ℕ) (x y : EndedEpoch)
        → IsImageOf s v image → IsImageOf s w image → slice_get v.ended i ≡ Some x
        → slice_get w.ended i ≡ Some y → t < s.threads
        → (x.entries t ≡ y.entries t) × (x.outputs t ≡ y.outputs t) }
{}

/// A script in two parts, of which the second goes on from the world to which the first led, is one script: it writes
/// the lines of both, and leaves what the second part ends in. What the first part released stays, in its order.
pub fn handing_over_is_running<X>()
    ensures script { (s : Setting X) (first second : List Event) (early late : List ℕ)
        (w new : World X) → Performs s (opening X) first early w → Performs s w second late new
        → Performs s (opening X) (first ++ second) (early ++ late) new }
    ensures leaves { (s : Setting X) (first second : List Event) (early late : List ℕ)
        (w new : World X) (steps : List (Step X)) → Performs s (opening X) first early w
        → Performs s w second late new → IsFinish s new steps
        → Leaves s (first ++ second) ((early ++ late) ++ done_line new) (packets_of new.released)
        (moves_made steps) }
    ensures stops { (s : Setting X) (first before after : List Event) (ev : Event)
        (early late : List ℕ) (w there world : World X) (limit : Limit)
        → Performs s (opening X) first early w → Performs s w before late there
        → Stops s there ev limit world
        → LeavesAt s (first ++ (before ++ ev ∷ after)) limit (early ++ late)
        (packets_of world.released) }
    ensures released { (s : Setting X) (w : World X) (events : List Event) (lines : List ℕ)
        (new : World X) → Performs s w events lines new → (more : List Sent)
        × (new.released ≡ w.released ++ more) }
{}
