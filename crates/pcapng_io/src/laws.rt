//! The laws of pcapng captures. Each is proved, and does nothing.
ghost use Rattle.std.specs.Prelude.{◌≡◌, ◌≤◌, ℕ, List, length, All};
ghost use Rattle.plain_text.specs.declared.limit.Limit.{Limit};
ghost use Rattle.plain_text.specs.declared.packet.Packet.{Packet};
ghost use Rattle.plain_text.specs.declared.limit.TheConstants.{MOST_FILE_BYTES, MOST_PACKETS};
ghost use Rattle.plain_text.specs.declared.packet.Unit.TheVariants.{Nano};
ghost use Rattle.plain_text.specs.Octets.{IsOfBytes};
ghost use Rattle.pcap_io.specs.Capture.{AreRecorded, written};
ghost use Rattle.pcapng_io.specs.declared.capture.AnyCaptured.{AnyCaptured};
ghost use Rattle.pcapng_io.specs.declared.fault.NgFault.{NgFault};
ghost use Rattle.pcapng_io.specs.Capture.{IsNg, IsNgFault};
ghost use Rattle.pcapng_io.specs.Captured.{SaysAny, IsDecidedAny};
ghost use Rattle.pcapng_io.specs.Limits.{PassesNgLimit};

/// Bytes are a pcapng capture of at most one list of packets.
pub fn one_ng()
    ensures { (bytes : List ℕ) (ps qs : List Packet) → IsNg bytes ps → IsNg bytes qs → ps ≡ qs }
{}

/// The packets of a pcapng capture are such that a record of a savefile can have them, and of bytes.
pub fn ng_is_recorded()
    ensures { (bytes : List ℕ) (ps : List Packet) → IsNg bytes ps
        → AreRecorded ps × All IsOfBytes ps }
{}

/// A pcapng capture is read as the savefile of the same packets in nanoseconds, where neither passes a limit.
pub fn ng_is_read_as_written()
    ensures { (bytes : List ℕ) (ps : List Packet) (a b : AnyCaptured) → IsNg bytes ps
        → length ps ≤ MOST_PACKETS → length bytes ≤ MOST_FILE_BYTES
        → length (written Nano ps) ≤ MOST_FILE_BYTES
        → IsDecidedAny a → IsDecidedAny b
        → SaysAny bytes a → SaysAny (written Nano ps) b → a ≡ b }
{}

/// Bytes have at most one first fault, and a capture has none.
pub fn one_ng_fault()
    ensures one { (bytes : List ℕ) (f g : NgFault) → IsNgFault bytes f → IsNgFault bytes g → f ≡ g }
    ensures none { (bytes : List ℕ) (ps : List Packet) (f : NgFault)
        → IsNg bytes ps → IsNgFault bytes f → ⊥ }
{}

/// Bytes pass at most one limit.
pub fn one_ng_limit()
    ensures { (bytes : List ℕ) (l m : Limit) → PassesNgLimit bytes l → PassesNgLimit bytes m
        → l ≡ m }
{}

/// Bytes of either format have one answer, so that each comes exactly where it is true.
pub fn one_any_answer()
    ensures { (bytes : List ℕ) (a b : AnyCaptured) → IsDecidedAny a → IsDecidedAny b
        → SaysAny bytes a → SaysAny bytes b → a ≡ b }
{}
