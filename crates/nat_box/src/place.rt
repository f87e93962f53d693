ghost use Rattle.std.specs.Prelude.{◌≡◌, ◌≤◌};
ghost use Rattle.nat_box.specs.Places.{number_of, place_numbered, number_of_class, class_of, noted};
ghost use Rattle.nat_box.specs.Places.{local_of, source_key, dest_key, number_of_segment};
ghost use Rattle.nat_box.specs.Places.{packed, packed_port, packed_segment};
ghost use Rattle.nat_box.specs.Places.{drawn_word, drop_reason, is_refused};

use box_program::Local;
use nat_tables::{Endpoint, PortKey, Segment};

/// The register of a Local in which a packet that is counted as dropped has the reason.
pub const REASON_REGISTER: usize = 6;

/// No outside port: a mapping has another.
pub(crate) const NO_PORT: u16 = 0;

/// What is done next with a packet.
#[derive(Clone, Copy, Debug, PartialEq, Eq)]
pub enum Place {
    /// It is told the time.
    HearsTime,
    /// It looks its source up in the source's forward table.
    FindsMapping,
    /// It unbinds the port of an idle mapping that was removed.
    UnbindsFreed,
    /// It gives this port back to the pool.
    GivesBackFreed,
    /// It is told a random word.
    DrawsWord,
    /// It takes a port out of the pool.
    ReservesPort,
    /// It binds this port to its source, in the port's reverse table.
    BindsPort,
    /// It maps its source to this port, unless the source has a mapping by now.
    FindsOrBinds,
    /// It unbinds the port that it took in vain.
    UnbindsLost,
    /// It gives this port back to the pool.
    GivesBackLost,
    /// It reads which endpoint its destination port is bound to.
    FindsEndpoint,
    /// It reads whether this endpoint's mapping to the port lives.
    AsksIfLives,
    /// It reads which port its source is mapped to: an error of ICMP about a packet that came in.
    FindsPort,
    /// It is counted as dropped.
    CountsDrop,
    /// It goes out.
    SendsOut,
    /// It is done.
    Ends,
}

impl Place {
    /// The number of the place in a Local.
    fn number(self) -> u32
        ensures { result ≡ number_of self }
    {
        match self {
            Place::HearsTime => 0,
            Place::FindsMapping => 1,
            Place::UnbindsFreed => 2,
            Place::GivesBackFreed => 3,
            Place::DrawsWord => 4,
            Place::ReservesPort => 5,
            Place::BindsPort => 6,
            Place::FindsOrBinds => 7,
            Place::UnbindsLost => 8,
            Place::GivesBackLost => 9,
            Place::FindsEndpoint => 10,
            Place::AsksIfLives => 11,
            Place::CountsDrop => 12,
            Place::SendsOut => 13,
            Place::Ends => 14,
            Place::FindsPort => 15,
        }
    }

    /// The place of a number; the end for a number of no place.
    pub(crate) fn numbered(number: u32) -> Place
        ensures { result ≡ place_numbered number }
    {
        match number {
            0 => Place::HearsTime,
            1 => Place::FindsMapping,
            2 => Place::UnbindsFreed,
            3 => Place::GivesBackFreed,
            4 => Place::DrawsWord,
            5 => Place::ReservesPort,
            6 => Place::BindsPort,
            7 => Place::FindsOrBinds,
            8 => Place::UnbindsLost,
            9 => Place::GivesBackLost,
            10 => Place::FindsEndpoint,
            11 => Place::AsksIfLives,
            12 => Place::CountsDrop,
            13 => Place::SendsOut,
            15 => Place::FindsPort,
            _ => Place::Ends,
        }
    }
}

/// Where a flow comes from and goes to.
#[derive(Clone, Copy, Debug, PartialEq, Eq)]
pub enum Class {
    /// From inside to outside.
    Outbound,
    /// From inside to the outside address, and so to the inside again (RFC 4787, REQ-9, hairpinning).
    Hairpin,
    /// From outside to the outside address.
    Inbound,
    /// An error of ICMP from inside to outside, about a packet that came in (RFC 5508, REQ-5).
    OutboundError,
}

impl Class {
    fn number(self) -> u64
        ensures { result ≡ number_of_class self }
    {
        match self {
            Class::Outbound => 0,
            Class::Hairpin => 1,
            Class::Inbound => 2,
            Class::OutboundError => 3,
        }
    }

    fn numbered(number: u64) -> Class
        ensures { result ≡ class_of number }
    {
        match number {
            0 => Class::Outbound,
            1 => Class::Hairpin,
            3 => Class::OutboundError,
            _ => Class::Inbound,
        }
    }
}

/// The number of a kind of segments.
fn number_of_segment(segment: Segment) -> u64
    ensures number { result ≡ number_of_segment segment }
    ensures few { result ≤ 3 }
{
    match segment {
        Segment::Silent => 0,
        Segment::Opens => 1,
        Segment::Carries => 2,
        Segment::Closes => 3,
    }
}

/// A port and a kind of segments in one register: the port in its low 16 bits, and the kind above them.
fn packed(port: u16, segment: Segment) -> u64
    ensures { result ≡ packed port segment }
{
    u64::from(port) + (1 << 16) * number_of_segment(segment)
}

/// The port that a register has in its low 16 bits.
fn packed_port(register: u64) -> u16
    ensures { result ≡ packed_port register }
{
    (register % (1 << 16)) as u16
}

/// The kind of segments that a register has above its low 16 bits.
fn packed_segment(register: u64) -> Segment
    ensures { result ≡ packed_segment register }
{
    match register / (1 << 16) {
        0 => Segment::Silent,
        1 => Segment::Opens,
        2 => Segment::Carries,
        _ => Segment::Closes,
    }
}

/// What is noted of a packet in hand.
#[derive(Clone, Copy, Debug, PartialEq, Eq)]
pub struct Noted {
    pub class: Class,
    /// Where it comes from.
    pub source: Endpoint,
    /// The port that it goes to.
    pub dest_port: u16,
    /// What it tells of its connection, where connections are followed.
    pub segment: Segment,
    /// The time that it was told, in microseconds.
    pub time: u64,
    /// One of two numbers, by its place: the random word that it was told, or the reason for which it is dropped.
    pub word_or_reason: u64,
    /// The outside port of its source, or the one that is about to be; `NO_PORT` where its host may have no mapping
    /// more.
    pub port: u16,
    /// A port that is to be given back.
    pub freed: PortKey,
    /// The inside endpoint that it goes to, of the protocol of its source.
    pub target: Endpoint,
}

impl Noted {
    /// What a Local has noted.
    pub(crate) fn read_from(local: &Local) -> Noted
        ensures { result ≡ noted local.now }
    {
        let protocol = (local.regs[1] % (1 << 8)) as u8;
        Noted {
            class: Class::numbered(local.regs[0]),
            source: Endpoint {
                protocol,
                address: (local.regs[2] % (1 << 32)) as u32,
                port: (local.regs[3] % (1 << 16)) as u16,
            },
            dest_port: packed_port(local.regs[4]),
            segment: packed_segment(local.regs[4]),
            time: local.regs[5],
            word_or_reason: local.regs[REASON_REGISTER],
            port: (local.regs[7] % (1 << 16)) as u16,
            freed: PortKey {
                protocol: (local.regs[8] % (1 << 8)) as u8,
                port: (local.regs[9] % (1 << 16)) as u16,
            },
            target: Endpoint {
                protocol,
                address: (local.regs[10] % (1 << 32)) as u32,
                port: (local.regs[11] % (1 << 16)) as u16,
            },
        }
    }

    /// The random word that it was told, from then until it takes a port.
    pub(crate) fn drawn_word(self) -> u64
        ensures { result ≡ drawn_word self }
    {
        self.word_or_reason
    }

    /// The reason for which it is dropped, where it is counted as dropped.
    pub(crate) fn drop_reason(self) -> u64
        ensures { result ≡ drop_reason self }
    {
        self.word_or_reason
    }

    /// Whether it was refused a mapping, as its host may have none more.
    pub(crate) fn is_refused(self) -> bool
        ensures { result ≡ is_refused self }
    {
        self.port == NO_PORT
    }

    /// The outside port of its source.
    pub(crate) fn source_key(&self) -> PortKey
        ensures { result ≡ source_key self.now }
    {
        PortKey {
            protocol: self.source.protocol,
            port: self.port,
        }
    }

    /// The outside port that it goes to.
    pub(crate) fn dest_key(&self) -> PortKey
        ensures { result ≡ dest_key self.now }
    {
        PortKey {
            protocol: self.source.protocol,
            port: self.dest_port,
        }
    }
}

/// Where a packet goes from here.
#[derive(Clone, Copy, Debug, PartialEq, Eq)]
pub struct Goes {
    pub place: Place,
    pub noted: Noted,
}

impl Goes {
    /// The Local that says so.
    pub(crate) fn local(&self) -> Local
        ensures { result ≡ local_of self.now.place self.now.noted }
    {
        let noted = &self.noted;
        Local {
            at: self.place.number(),
            regs: [
                noted.class.number(),
                u64::from(noted.source.protocol),
                u64::from(noted.source.address),
                u64::from(noted.source.port),
                packed(noted.dest_port, noted.segment),
                noted.time,
                noted.word_or_reason,
                u64::from(noted.port),
                u64::from(noted.freed.protocol),
                u64::from(noted.freed.port),
                u64::from(noted.target.address),
                u64::from(noted.target.port),
            ],
        }
    }
}
