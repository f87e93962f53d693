//! The fields of frames, packets and segments, each with the place after its last byte.

/// The place where the next field begins, and the name of this one.
type Part = (usize, &'static str);

/// What is in no header.
const DATA: &str = "data";

/// The bytes of a tag (IEEE 802.1Q), and those by which a frame says that IPv4 follows.
const TAG: [u8; 2] = [0x81, 0x00];

const IPV4: [u8; 2] = [0x08, 0x00];

/// An untagged Ethernet header (IEEE 802.3).
static ETHERNET_PARTS: [Part; 3] = [
    (6, "Ethernet destination"),
    (12, "Ethernet source"),
    (14, "EtherType"),
];

static TAGGED_PARTS: [Part; 4] = [
    (6, "Ethernet destination"),
    (12, "Ethernet source"),
    (16, "VLAN tag"),
    (18, "EtherType"),
];

/// RFC 791, section 3.1.
static IPV4_PARTS: [Part; 10] = [
    (1, "version and header length"),
    (2, "type of service"),
    (4, "total length"),
    (6, "identification"),
    (8, "flags and fragment offset"),
    (9, "time to live"),
    (10, "protocol"),
    (12, "header checksum"),
    (16, "source address"),
    (20, "destination address"),
];

/// RFC 9293, section 3.1.
static TCP_PARTS: [Part; 9] = [
    (2, "TCP source port"),
    (4, "TCP destination port"),
    (8, "TCP sequence number"),
    (12, "TCP acknowledgment number"),
    (13, "TCP data offset"),
    (14, "TCP control bits"),
    (16, "TCP window"),
    (18, "TCP checksum"),
    (20, "TCP urgent pointer"),
];

/// RFC 768.
static UDP_PARTS: [Part; 4] = [
    (2, "UDP source port"),
    (4, "UDP destination port"),
    (6, "UDP length"),
    (8, "UDP checksum"),
];

/// The field of an Ethernet frame at this place.
pub fn field_at(frame: &[u8], place: usize) -> &'static str {
    if frame.get(12..14) == Some(TAG.as_slice()) {
        part_or_packet(frame, place, &TAGGED_PARTS, 18)
    } else {
        part_or_packet(frame, place, &ETHERNET_PARTS, 14)
    }
}

/// The same where the header has this many bytes and these fields.
fn part_or_packet(frame: &[u8], place: usize, parts: &[Part], length: usize) -> &'static str {
    if let Some(name) = part_at(parts, place) {
        return name;
    }
    let kind = frame.get(length.saturating_sub(2)..length);
    match (frame.get(length..), place.checked_sub(length)) {
        (Some(packet), Some(place)) if kind == Some(IPV4.as_slice()) => packet_field(packet, place),
        _ => DATA,
    }
}

/// The name of the field at this place, of a header with these.
fn part_at(parts: &[Part], place: usize) -> Option<&'static str> {
    for part in parts {
        if place < part.0 {
            return Some(part.1);
        }
    }
    None
}

/// The field of an IPv4 packet at this place.
fn packet_field(packet: &[u8], place: usize) -> &'static str {
    if let Some(name) = part_at(&IPV4_PARTS, place) {
        return name;
    }
    let [first, _, _, _, _, _, high, low, _, protocol, ..] = packet else {
        return DATA;
    };
    let length = usize::from(*first & 15) * 4;
    let Some(after) = place.checked_sub(length) else {
        return "options of IPv4";
    };
    if *high & 0x1f != 0 || *low != 0 {
        return DATA;
    }
    match *protocol {
        6 => segment_field(packet.get(length..).unwrap_or(&[]), after),
        17 => part_at(&UDP_PARTS, after).unwrap_or(DATA),
        _ => DATA,
    }
}

/// The field of a TCP segment at this place.
fn segment_field(segment: &[u8], place: usize) -> &'static str {
    if let Some(name) = part_at(&TCP_PARTS, place) {
        return name;
    }
    match segment.get(12) {
        Some(offset) if place < usize::from(*offset / 16) * 4 => "TCP options",
        _ => DATA,
    }
}
