//! Ethernet frames with one VLAN tag in front of what they carry (IEEE 802.1Q), and how they are looked through.
//!
//! No call takes memory.
#![tactic(auto)]

ghost use Rattle.std.specs.Prelude.{◌≡◌, ◌≤◌, length};
ghost use Rattle.tagged_frames.specs.Tags.{is_tagged, tag_length};

use packet_headers::{IP_HEADER, word_at};
pub use packet_headers::{steering_sum, view};
pub use plain_text::{NoMemory, Packet, Packets, Sequence};

/// Where a frame has its Ethernet type, or the type of its tag (IEEE 802.1Q, 9.3).
const ETHER_TYPE: usize = 12;

/// The type of a customer's VLAN tag (IEEE 802.1Q, 9.5).
const TAG_TYPE: u16 = 0x8100;

/// The bytes of a tag: its type and its control information (IEEE 802.1Q, 9.3).
const TAG_BYTES: usize = 4;

/// How many bytes of the frame are looked through: the four of its tag where tags are looked through and it has one,
/// else none.
///
/// What follows the tag stands then as many bytes sooner, where a frame without a tag has it. A second tag is not
/// looked through.
pub fn tag_length(tags: bool, frame: &[u8]) -> usize
    ensures value { result ≡ tag_length tags frame.now }
    ensures within { result ≤ length frame.now }
    ensures short { result ≤ 4 }
{
    if tags && is_tagged(frame) {
        TAG_BYTES
    } else {
        0
    }
}

/// Whether a tag's type stands where the frame would have its Ethernet type.
fn is_tagged(frame: &[u8]) -> bool
    ensures { result ≡ is_tagged frame.now }
{
    frame.len() >= IP_HEADER && word_at(frame, ETHER_TYPE) == TAG_TYPE
}
