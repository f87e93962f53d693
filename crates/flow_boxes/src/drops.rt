ghost use Rattle.std.specs.Prelude.{◌≡◌, IfOk, OnOk};
ghost use Rattle.std.specs.String.{string_bytes};
ghost use Rattle.flow_boxes.specs.Drops.{no_drops, with_drop, reason_of};
ghost use Rattle.flow_boxes.specs.Shown.{with_reason, drops_text};

use packet_headers::NotFlow;
use plain_text::{NoMemory, Text, put_decimal};
use std::alloc::Global;

/// The reason for which a packet is dropped that is a flow, and none of those that the box serves.
pub const STRAY: u64 = 9;

/// The reason, 1 to 6, for which a packet is dropped that is no flow.
pub fn reason_of(answer: NotFlow) -> u64
    ensures { result ≡ reason_of answer }
{
    match answer {
        NotFlow::Short => 1,
        NotFlow::NotIpv4 => 2,
        NotFlow::BadHeaderLength => 3,
        NotFlow::Fragment => 4,
        NotFlow::OtherProtocol => 5,
        NotFlow::BadTotalLength => 6,
    }
}

/// How many packets were dropped, by the reason less 1, modulo 2^64.
///
/// Reasons 1 to 6 are those for which a frame is no flow. What 7 to 10 mean is the box's to say. 10 is
/// the NAT's, "over limit": a host has as many mappings as it may have.
#[derive(Clone, Copy, Debug, PartialEq, Eq)]
pub struct Drops {
    /// The count of reason 1 first.
    pub counts: [u64; 10],
}

impl Drops {
    /// The counts before the first packet: all 0.
    pub fn new() -> Self
        ensures { result ≡ no_drops }
    {
        Drops { counts: [0; 10] }
    }

    /// Counts one packet more for a reason, 1 to 10.
    pub fn add(&mut self, reason: u64)
        ensures { self.new ≡ with_drop reason self.old }
    {
        if 0 < reason && reason < 11 {
            let index = (reason - 1) as usize;
            self.counts[index] = self.counts[index].wrapping_add(1);
        }
    }

    /// The reasons with their counts, such as `7:1 8:2`, or `-` where nothing was dropped.
    pub fn text(&self, alloc: Global) -> Result<Text, NoMemory>
        ensures { IfOk result (λ text. text ≡ drops_text self.now) }
    {
        let mut text = String::new(alloc);
        for (index, count) in self.counts.iter().enumerate() {
            put_reason(&mut text, index as u64 + 1, *count)?;
        }
        if text.is_empty() {
            return Text::of(alloc, "-");
        }
        Text::of(alloc, text.as_str())
    }
}

/// Appends a reason with its count, where this is not 0.
fn put_reason(text: &mut String, reason: u64, count: u64) -> Result<(), NoMemory>
    ensures { OnOk result (string_bytes text.new
        ≡ with_reason reason count (string_bytes text.old)) }
{
    if count == 0 {
        return Ok(());
    }
    if !text.is_empty() {
        text.push_str(" ")?;
    }
    put_decimal(text, reason)?;
    text.push_str(":")?;
    put_decimal(text, count)
}
