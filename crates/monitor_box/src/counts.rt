ghost use Rattle.std.specs.Prelude.{◌≡◌};
ghost use Rattle.monitor_box.specs.Flows.{no_packets, one_more, no_totals, with_flow_packet};
ghost use Rattle.monitor_box.specs.Flows.{with_other_packet};

/// How many packets there were, modulo 2^64.
#[derive(Clone, Copy, Debug, PartialEq, Eq)]
pub struct Totals {
    /// The packets that were a flow's.
    pub packets: u64,
    /// The bytes that these had on the wire.
    pub bytes: u64,
    /// The packets that were no flow's.
    pub other: u64,
}

impl Totals {
    /// The totals before the first packet: all 0.
    pub fn new() -> Self
        ensures { result ≡ no_totals }
    {
        Totals {
            packets: 0,
            bytes: 0,
            other: 0,
        }
    }

    /// The totals after one more packet of a flow, of this number of bytes.
    pub fn with_flow_packet(&self, length: u64) -> Self
        ensures { result ≡ with_flow_packet length self.now }
    {
        Totals {
            packets: self.packets.wrapping_add(1),
            bytes: self.bytes.wrapping_add(length),
            other: self.other,
        }
    }

    /// The totals after one more packet that is no flow's.
    pub fn with_other_packet(&self) -> Self
        ensures { result ≡ with_other_packet self.now }
    {
        Totals {
            packets: self.packets,
            bytes: self.bytes,
            other: self.other.wrapping_add(1),
        }
    }
}

/// What tells one flow, in one direction, from all others.
#[derive(Clone, Copy, Debug, PartialEq, Eq, Hash)]
pub struct FlowKey {
    /// 6 for TCP, 17 for UDP, as in the IPv4 header.
    pub protocol: u8,
    /// The IPv4 address of the sender; the first byte on the wire is the highest.
    pub source: u32,
    /// The port of the sender.
    pub source_port: u16,
    /// The IPv4 address of the receiver, likewise.
    pub dest: u32,
    /// The port of the receiver.
    pub dest_port: u16,
}

/// How many packets a flow had, modulo 2^64.
#[derive(Clone, Copy, Debug, PartialEq, Eq)]
pub struct FlowCount {
    /// The packets of the flow.
    pub packets: u64,
    /// The bytes that these had on the wire.
    pub bytes: u64,
}

impl FlowCount {
    /// The count before the first packet: 0 packets and 0 bytes.
    pub fn new() -> Self
        ensures { result ≡ no_packets }
    {
        FlowCount {
            packets: 0,
            bytes: 0,
        }
    }

    /// The count after one more packet, of this number of bytes.
    pub fn with_packet(&self, length: u64) -> Self
        ensures { result ≡ one_more self.now length }
    {
        FlowCount {
            packets: self.packets.wrapping_add(1),
            bytes: self.bytes.wrapping_add(length),
        }
    }
}
