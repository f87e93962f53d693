//! The laws of the plain machine, of every program. Each is proved, and does nothing: a caller has them by the call.
ghost use Rattle.std.specs.Prelude.{◌≡◌, ℕ, ◌+◌, List, [], ◌∷◌, ◌++◌, length, Option, Ok, Err};
ghost use Rattle.plain_text.specs.declared.packet.Packet.{Packet};
ghost use Rattle.entry_order.specs.Log.{Entry, IsLog, IsIn};
ghost use Rattle.plain_machine.specs.declared.plain_move.PlainMove.{PlainMove};
ghost use Rattle.plain_machine.specs.declared.plain_move.PlayFault.{PlayFault};
ghost use Rattle.plain_machine.specs.Program.{Meaning};
ghost use Rattle.plain_machine.specs.Machine.{Thread};
ghost use Rattle.plain_machine.specs.History.{Step, log_of, plain_move, and_moves, play, IsStep};
ghost use Rattle.plain_machine.specs.History.{IsHistory};
ghost use Rattle.plain_machine.specs.Agree.{IsEarlier, Makes, Agreement};
ghost use Rattle.plain_machine.specs.Continue.{Continuation, Recovery};

/// A legal list of moves gives a history, with one step for each move, and each history is that of a legal list. Where
/// a list is not legal, the moves before the one that the fault names are, and that one is none that may follow them.
pub fn lists_are_histories<X>()
    ensures history { (m : Meaning X) (inputs : ℕ → List Packet) (threads : ℕ)
        (moves : List PlainMove) (steps : List (Step X))
        → play m inputs threads moves ≡ Ok steps → IsHistory m inputs threads steps }
    ensures one_step_each { (m : Meaning X) (inputs : ℕ → List Packet) (threads : ℕ)
        (moves : List PlainMove) (steps : List (Step X))
        → play m inputs threads moves ≡ Ok steps → length steps ≡ length moves }
    ensures played { (m : Meaning X) (inputs : ℕ → List Packet) (threads : ℕ)
        (steps : List (Step X))
        → IsHistory m inputs threads steps
        → (moves : List PlainMove) × (play m inputs threads moves ≡ Ok steps) }
    ensures first_fault { (m : Meaning X) (inputs : ℕ → List Packet) (threads : ℕ)
        (moves : List PlainMove) (fault : PlayFault)
        → play m inputs threads moves ≡ Err fault
        → (before : List PlainMove) × (move : PlainMove) × (rest : List PlainMove)
        × (steps : List (Step X))
        × (moves ≡ before ++ (move ∷ rest)) × (play m inputs threads before ≡ Ok steps)
        × (plain_move m inputs threads steps move ≡ Err fault.cause)
        × (fault.number ≡ length before + 1) }
{}

/// A list is played by playing its first moves and going on with the rest, so the first moves of a legal list are a
/// legal list, whose history is what the longer one was at an earlier moment.
pub fn lists_go_on<X>()
    ensures appended { (m : Meaning X) (inputs : ℕ → List Packet) (threads : ℕ)
        (moves more : List PlainMove)
        → play m inputs threads (moves ++ more)
        ≡ and_moves m inputs threads (play m inputs threads moves) more }
    ensures first_moves { (m : Meaning X) (inputs : ℕ → List Packet) (threads : ℕ)
        (moves more : List PlainMove) (steps : List (Step X))
        → play m inputs threads (moves ++ more) ≡ Ok steps
        → (earlier : List (Step X)) × (play m inputs threads moves ≡ Ok earlier)
        × IsEarlier earlier steps }
    ensures one_more { (m : Meaning X) (inputs : ℕ → List Packet) (threads : ℕ)
        (moves : List PlainMove) (steps next : List (Step X)) (move : PlainMove)
        → play m inputs threads moves ≡ Ok steps → plain_move m inputs threads steps move ≡ Ok next
        → play m inputs threads (moves ++ move ∷ []) ≡ Ok next }
    ensures earlier_moment { (m : Meaning X) (inputs : ℕ → List Packet) (threads : ℕ)
        (steps earlier : List (Step X))
        → IsHistory m inputs threads steps → IsEarlier earlier steps
        → IsHistory m inputs threads earlier }
{}

/// The logged moves of a history are a log, and each of its entries was made by a step.
pub fn entries_are_logged<X>()
    ensures log { (m : Meaning X) (inputs : ℕ → List Packet) (threads : ℕ) (steps : List (Step X))
        → IsHistory m inputs threads steps → IsLog (log_of steps) }
    ensures made { (steps : List (Step X)) (e : Entry)
        → IsIn e (log_of steps) → (left : Option X) × (after : Thread) × Makes steps e left after }
{}

/// Two runs on the same inputs that keep the same closed set of entries agree: on the value that each touch of the set
/// left, on where the thread stood after each of its entries, and on each packet that both sent out and whose
/// predecessors are in the set.
pub fn runs_agree<X>()
    ensures { (m : Meaning X) (inputs : ℕ → List Packet) (threads : ℕ)
        → Agreement m inputs threads }
{}

/// A run is continued by entries of another run on the same inputs: where they are numbered on after it, and where each
/// of their immediate predecessors in it is in a closed set of entries that both keep, some moves after it have exactly
/// these entries.
pub fn runs_continue<X>()
    ensures { (m : Meaning X) (inputs : ℕ → List Packet) (threads : ℕ)
        → Continuation m inputs threads }
{}

/// What was logged can be made again after a crash: where a set of entries of a run is closed over an earlier moment of
/// it, some moves after that moment make exactly the entries of the set that it lacks.
pub fn runs_recover<X>()
    ensures { (m : Meaning X) (inputs : ℕ → List Packet) (threads : ℕ) → Recovery m inputs threads }
{}
