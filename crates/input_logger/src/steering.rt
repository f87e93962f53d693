ghost use Rattle.std.specs.Prelude.{◌≡◌, ◌≤◌, ◌<◌};
ghost use Rattle.input_logger.specs.Inputs.{thread_of};

use tagged_frames::{Packet, steering_sum, tag_length, view};

/// The thread that a packet is steered to: its flow's steering sum modulo the number of threads. What is not a flow
/// goes to thread 0. Where tags are looked through, the flow is that behind the packet's tag.
///
/// Both directions of a flow have one thread, as `both_directions_have_one_thread` says. It takes no memory.
pub fn steer(packet: &Packet, threads: u32, tags: bool) -> u32
    requires some { 1 ≤ threads }
    requires few { threads ≤ 16 }
    ensures thread { result ≡ thread_of tags packet.now threads }
    ensures below { result < threads }
{
    let frame = packet.bytes.as_slice();
    let tag = tag_length(tags, frame);
    match view(&frame[tag..], packet.original.saturating_sub(tag as u32)) {
        Ok(flow) => (steering_sum(&flow) % u64::from(threads)) as u32,
        Err(_) => 0,
    }
}
