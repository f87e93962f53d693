//! The laws of captures. Each is proved, and does nothing.
ghost use Rattle.std.specs.Prelude.{◌≡◌, ◌≤◌, ℕ, List, length};
ghost use Rattle.plain_text.specs.declared.limit.TheConstants.{MOST_FILE_BYTES, MOST_PACKETS};
ghost use Rattle.plain_text.specs.declared.limit.Limit.{Limit};
ghost use Rattle.plain_text.specs.declared.packet.Packet.{Packet};
ghost use Rattle.plain_text.specs.declared.packet.Unit.{Unit as TimeUnit};
ghost use Rattle.pcap_io.specs.declared.capture.Captured.{Captured};
ghost use Rattle.pcap_io.specs.declared.capture.Captured.TheVariants.{Capture};
ghost use Rattle.pcap_io.specs.declared.fault.CaptureFault.{CaptureFault};
ghost use Rattle.pcap_io.specs.Capture.{IsCapture, AreRecorded, written};
ghost use Rattle.pcap_io.specs.Captured.{Says, IsDecided};
ghost use Rattle.pcap_io.specs.Faults.{IsFaultOf};
ghost use Rattle.pcap_io.specs.Limits.{PassesLimit};

/// Bytes are a capture of at most one unit and one list of packets.
pub fn one_capture()
    ensures { (bytes : List ℕ) (u v : TimeUnit) (ps qs : List Packet)
        → IsCapture bytes u ps → IsCapture bytes v qs → (u ≡ v) × (ps ≡ qs) }
{}

/// Bytes have at most one first fault, and a capture has none.
pub fn one_fault()
    ensures one { (bytes : List ℕ) (f g : CaptureFault)
        → IsFaultOf bytes f → IsFaultOf bytes g → f ≡ g }
    ensures none { (bytes : List ℕ) (u : TimeUnit) (ps : List Packet) (f : CaptureFault)
        → IsCapture bytes u ps → IsFaultOf bytes f → ⊥ }
{}

/// What is written is a capture of the packets that were written.
pub fn written_is_capture()
    ensures { (u : TimeUnit) (ps : List Packet) → AreRecorded ps → IsCapture (written u ps) u ps }
{}

/// What is written is read again, where it is within the limits.
pub fn written_is_read()
    ensures { (u : TimeUnit) (ps : List Packet) (answer : Captured)
        → AreRecorded ps → length ps ≤ MOST_PACKETS → length (written u ps) ≤ MOST_FILE_BYTES
        → IsDecided answer → Says (written u ps) answer → answer ≡ Capture u ps }
{}

/// Bytes pass at most one limit.
pub fn one_limit()
    ensures { (bytes : List ℕ) (l m : Limit) → PassesLimit bytes l → PassesLimit bytes m → l ≡ m }
{}

/// Bytes have one answer, so that each comes exactly where it is true.
pub fn one_answer()
    ensures { (bytes : List ℕ) (a b : Captured)
        → IsDecided a → IsDecided b → Says bytes a → Says bytes b → a ≡ b }
{}
