ghost use Rattle.std.specs.Prelude.{◌≡◌, ◌↔◌, ◌<◌, ◌≤◌, ◌-◌, IsTrue, length, take, slice_get};
ghost use Rattle.drill_report.specs.Report.{IsFirstDifference, packets_in};

use access_log::Output;
use plain_text::Packet;

/// Whether two packets are one: the time, the length on the wire and the bytes.
fn are_same(packet: &Packet, other: &Packet) -> bool
    ensures { IsTrue result ↔ (packet.now ≡ other.now) }
{
    packet.seconds == other.seconds
        && packet.fraction == other.fraction
        && packet.original == other.original
        && packet.bytes.as_slice() == other.bytes.as_slice()
}

/// The place of the first packet of the outputs, from 1, that is not the same in both lists, where one may be longer.
/// None where the packets are the same.
pub fn first_difference(outputs: &[Output], others: &[Output]) -> Option<u64>
    ensures { IsFirstDifference (packets_in outputs.now) (packets_in others.now) result }
{
    for (place, output) in outputs.iter().enumerate() {
        if place >= others.len() {
            return Some(place as u64 + 1);
        }
        if !are_same(&output.packet, &others[place].packet) {
            return Some(place as u64 + 1);
        }
    }
    if outputs.len() < others.len() {
        return Some(outputs.len() as u64 + 1);
    }
    None
}
