/// The bytes of an ICMP header (RFC 792), behind which the quoted packet begins.
pub(crate) const ICMP_HEADER: usize = 8;

/// An error of ICMP and the TCP or UDP packet that it quotes: their addresses, and where their headers stand.
#[derive(Clone, Copy, Debug, PartialEq, Eq)]
pub struct IcmpError {
    /// The IPv4 address of the error's sender; the first byte on the wire is the highest.
    pub source: u32,
    /// The IPv4 address of its receiver, likewise.
    pub dest: u32,
    /// The protocol of the quoted packet: 6 for TCP, 17 for UDP.
    pub protocol: u8,
    /// The address from which the quoted packet was sent.
    pub quoted_source: u32,
    pub quoted_source_port: u16,
    /// The address to which it was sent.
    pub quoted_dest: u32,
    pub quoted_dest_port: u16,
    /// The place in the frame of the first byte of the ICMP header. The quoted IPv4 header begins 8 bytes behind it.
    pub icmp_at: u32,
    /// The place of the first byte behind the quoted IPv4 header.
    pub transport_at: u32,
    /// The place behind the last byte of the error, where padding of the frame may follow.
    pub end: u32,
}
