use super::advice::{Advice, Difference, PacketAdvice};
use super::captures::{Captured, capture_again};
use super::fields::field_at;
use super::files::read_again;
use super::nearest::equal_front;
use super::replay::{Fed, box_again, feed_again};
use super::shown::Shown;
use box_conf::BoxKind;
use input_logger::InputLog;
use job_commands::{CheckWords, ScheduleFiles};
use plain_machine::Schedule;
use plain_player::read_schedule;
use plain_text::{Packet, Packets, Text, Unit};
use schedule_check::emit;
use std::alloc::Global;
use std::rt::Files;

/// How many packets are compared at most to find those that were taken: some 64 for each packet of the largest capture.
/// Captures in the order of the schedule need one or two.
const MOST_COMPARED: usize = 64 * 65_536;

/// A packet with what the fraction of its time counts.
#[derive(Clone, Copy)]
struct Timed<'a> {
    packet: &'a Packet,
    unit: Unit,
}

impl<'a> Timed<'a> {
    /// The fraction of its second, in nanoseconds.
    fn nanoseconds(self) -> u64 {
        nanoseconds_of(self.unit, self.packet)
    }

    /// Whether two packets came at one time.
    fn is_at_once(self, other: Timed<'_>) -> bool {
        self.packet.seconds == other.packet.seconds && self.nanoseconds() == other.nanoseconds()
    }

    /// Whether `check` takes one for the other.
    fn is_same(self, other: Timed<'_>) -> bool {
        self.is_at_once(other)
            && self.packet.original == other.packet.original
            && self.packet.bytes.as_slice() == other.packet.bytes.as_slice()
    }

    /// In how many bytes, and in the time, two packets differ.
    fn differences(self, other: Timed<'_>) -> usize {
        let bytes = self.packet.bytes.as_slice();
        let others = other.packet.bytes.as_slice();
        let mut count = bytes.len().abs_diff(others.len());
        for (byte, other) in bytes.iter().zip(others.iter()) {
            if *byte != *other {
                count = count.saturating_add(1);
            }
        }
        if self.is_at_once(other) {
            count
        } else {
            count.saturating_add(1)
        }
    }
}

fn nanoseconds_of(unit: Unit, packet: &Packet) -> u64 {
    match unit {
        Unit::Micro => u64::from(packet.fraction) * 1000,
        Unit::Nano => u64::from(packet.fraction),
    }
}

/// In what a released packet that was refused differs from the nearest packet that the schedule sends out and that no
/// earlier released packet was taken for. The schedule is played once more. Nothing is told where that would take more
/// than `MOST_COMPARED` comparisons.
pub fn advise<'a, R: AllocGlobal + Files>(
    rt: &R,
    names: CheckWords<'a>,
    number: u64,
) -> Option<Advice<'a>> {
    let why = find_difference(rt, names, number)?;
    let name = Shown::name(names.released.as_str());
    Some(Advice::Packet(PacketAdvice { name, number, why }))
}

fn find_difference<R: AllocGlobal + Files>(
    rt: &R,
    names: CheckWords<'_>,
    number: u64,
) -> Option<Difference> {
    let sent = play_again(rt, names.files)?;
    let released = capture_again(rt, names.released)?;
    difference_between(rt.alloc(), &sent, &released, number)
}

fn difference_between(
    alloc: Global,
    sent: &Captured,
    released: &Captured,
    number: u64,
) -> Option<Difference> {
    let refused = packet_at(released, number)?;
    if let Some(place) = place_of_same(sent, refused) {
        return Some(Difference::Again(place));
    }
    let taken = taken_before(alloc, sent, released, number)?;
    match nearest_left(sent, &taken, refused) {
        Some(near) => Some(difference(refused, near)),
        None => Some(Difference::AllFound(sent.packets.len())),
    }
}

/// The packets that the schedule sends out, by the files as they are now.
fn play_again<R: AllocGlobal + Files>(rt: &R, names: ScheduleFiles<'_>) -> Option<Captured> {
    let conf = box_again(rt, names.box_file)?;
    let fed = feed_again(rt, names.capture, conf.threads, conf.tags)?;
    emit_again(rt, names.schedule, &conf.kind, &fed)
}

fn emit_again<R: AllocGlobal + Files>(
    rt: &R,
    name: &Text,
    kind: &BoxKind,
    fed: &Fed,
) -> Option<Captured> {
    let moves = read_again(rt, name)?;
    let schedule = read_schedule(rt.alloc(), &moves).ok()?;
    let packets = emit_by(rt.alloc(), kind, &fed.inputs, &schedule)?;
    Some(Captured {
        unit: fed.unit,
        packets,
    })
}

/// What a box of this kind sends out.
fn emit_by(
    alloc: Global,
    kind: &BoxKind,
    inputs: &InputLog,
    schedule: &Schedule,
) -> Option<Packets> {
    match kind {
        BoxKind::Count(count) => emit(alloc, count, inputs, schedule).ok(),
        BoxKind::Monitor(monitor) => emit(alloc, monitor, inputs, schedule).ok(),
        BoxKind::Nat(nat) => emit(alloc, nat, inputs, schedule).ok(),
        BoxKind::Balancer(balancer) => emit(alloc, balancer, inputs, schedule).ok(),
    }
}

/// The packet with this number, from 1.
fn packet_at(capture: &Captured, number: u64) -> Option<Timed<'_>> {
    let place = usize::try_from(number.checked_sub(1)?).ok()?;
    Some(Timed {
        packet: capture.packets.as_slice().get(place)?,
        unit: capture.unit,
    })
}

/// The number of the first packet of a capture that is the same as this one.
fn place_of_same(capture: &Captured, packet: Timed<'_>) -> Option<u64> {
    let unit = capture.unit;
    let mut number: u64 = 0;
    for other in capture.packets.as_slice() {
        number = number.saturating_add(1);
        if packet.is_same(Timed {
            packet: other,
            unit,
        }) {
            return Some(number);
        }
    }
    None
}

/// A packet that was sent out, and its number, from 1.
#[derive(Clone, Copy)]
struct Emitted<'a> {
    number: u64,
    sent: Timed<'a>,
}

/// Of the packets that were sent out and not taken, the one with the fewest differences from this packet.
fn nearest_left<'a>(sent: &'a Captured, taken: &[bool], refused: Timed<'_>) -> Option<Emitted<'a>> {
    let unit = sent.unit;
    let mut nearest = None;
    let mut fewest = usize::MAX;
    let mut number: u64 = 0;
    for (packet, is_taken) in sent.packets.as_slice().iter().zip(taken.iter()) {
        number = number.saturating_add(1);
        let sent = Timed { packet, unit };
        let count = refused.differences(sent);
        if !*is_taken && count < fewest {
            fewest = count;
            nearest = Some(Emitted { number, sent });
        }
    }
    nearest
}

/// Which of the packets that were sent out the released ones before this number were taken for; `None` where they are
/// too many to be compared.
fn taken_before(
    alloc: Global,
    sent: &Captured,
    released: &Captured,
    number: u64,
) -> Option<Vec<bool>> {
    let before = usize::try_from(number.checked_sub(1)?).ok()?;
    let earlier = released.packets.as_slice().get(..before)?;
    let unit = released.unit;
    let mut taken = vec![in alloc; false; sent.packets.len()].ok()?;
    let mut next = 0;
    let mut room = MOST_COMPARED;
    for packet in earlier {
        let packet = Timed { packet, unit };
        let found = match free_from(sent, &taken, next, packet, &mut room) {
            Some(place) => Some(place),
            None => free_from(sent, &taken, 0, packet, &mut room),
        };
        if room == 0 {
            return None;
        }
        if let Some(place) = found {
            if let Some(slot) = taken.get_mut(place) {
                *slot = true;
            }
            next = place;
        }
    }
    Some(taken)
}

/// The place of the first packet from this place on that is the same as another and is not taken. Of the room for
/// comparisons what was compared is taken away, and no more is compared.
fn free_from(
    sent: &Captured,
    taken: &[bool],
    from: usize,
    packet: Timed<'_>,
    room: &mut usize,
) -> Option<usize> {
    let unit = sent.unit;
    let packets = sent.packets.as_slice().get(from..)?;
    let taken = taken.get(from..)?;
    let most = *room;
    let mut compared: usize = 0;
    for (other, is_taken) in packets.iter().zip(taken.iter()).take(most) {
        if !*is_taken
            && packet.is_same(Timed {
                packet: other,
                unit,
            })
        {
            *room = most.saturating_sub(compared);
            return Some(from.saturating_add(compared));
        }
        compared = compared.saturating_add(1);
    }
    *room = most.saturating_sub(compared);
    None
}

/// In what a packet that was refused differs from one that was sent out: the first byte, with its field, or else how
/// many bytes there are, or the time.
fn difference(refused: Timed<'_>, near: Emitted<'_>) -> Difference {
    let bytes = refused.packet.bytes.as_slice();
    let others = near.sent.packet.bytes.as_slice();
    let emission = near.number;
    let place = equal_front(bytes, others);
    match (bytes.get(place), others.get(place)) {
        (Some(byte), Some(other)) => Difference::Byte {
            place,
            byte: *byte,
            other: *other,
            emission,
            field: field_at(others, place),
        },
        _ => difference_of_lengths(refused, near),
    }
}

/// The same where one has the bytes that the other begins with.
fn difference_of_lengths(refused: Timed<'_>, near: Emitted<'_>) -> Difference {
    let emission = near.number;
    let count = refused.packet.bytes.len();
    let other = near.sent.packet.bytes.len();
    if count != other {
        return Difference::Count(count, other, emission);
    }
    let count = refused.packet.original;
    let other = near.sent.packet.original;
    if count != other {
        return Difference::Wire(count, other, emission);
    }
    Difference::Time {
        seconds: refused.packet.seconds,
        fraction: refused.nanoseconds(),
        other_seconds: near.sent.packet.seconds,
        other_fraction: near.sent.nanoseconds(),
        emission,
    }
}
