/// The header of a capture in microseconds, low byte first, as tcpdump writes it.
pub const LITTLE_MICRO: &[u8] =
    b"\xd4\xc3\xb2\xa1\x02\0\x04\0\0\0\0\0\0\0\0\0\xff\xff\0\0\x01\0\0\0";

/// The header of a capture in microseconds as FTMB writes it: at most 262,144 bytes of a packet.
pub const WRITTEN_MICRO: &[u8] =
    b"\xd4\xc3\xb2\xa1\x02\0\x04\0\0\0\0\0\0\0\0\0\0\0\x04\0\x01\0\0\0";

/// A capture in microseconds of one packet, `QUERY`.
pub const ONE_PACKET: &[u8] =
    b"\xd4\xc3\xb2\xa1\x02\0\x04\0\0\0\0\0\0\0\0\0\xff\xff\0\0\x01\0\0\0d\0\0\0\x05\0\0\0*\0\0\0*\0\0\0\x02\0\xaa\xaa\xaa\xaa\x02\0\0\0\0\x01\x08\0E\0\0\x1c\0\x01\0\0@\x11F\x91\n\0\0\x05\xc63d\x07\x13\x88\05\0\x08\xb7\xe1";

/// What the counting box releases of `ONE_PACKET`: bytes 2 to 5 of the packet are the number 1.
pub const ONE_COUNTED: &[u8] =
    b"\xd4\xc3\xb2\xa1\x02\0\x04\0\0\0\0\0\0\0\0\0\0\0\x04\0\x01\0\0\0d\0\0\0\x05\0\0\0*\0\0\0*\0\0\0\x02\0\0\0\0\x01\x02\0\0\0\0\x01\x08\0E\0\0\x1c\0\x01\0\0@\x11F\x91\n\0\0\x05\xc63d\x07\x13\x88\05\0\x08\xb7\xe1";

/// A capture of two packets: `QUERY`, and `NEXT_QUERY` a microsecond later.
pub const TWO_PACKETS: &[u8] =
    b"\xd4\xc3\xb2\xa1\x02\0\x04\0\0\0\0\0\0\0\0\0\xff\xff\0\0\x01\0\0\0d\0\0\0\x05\0\0\0*\0\0\0*\0\0\0\x02\0\xaa\xaa\xaa\xaa\x02\0\0\0\0\x01\x08\0E\0\0\x1c\0\x01\0\0@\x11F\x91\n\0\0\x05\xc63d\x07\x13\x88\05\0\x08\xb7\xe1d\0\0\0\x06\0\0\0*\0\0\0*\0\0\0\x02\0\xaa\xaa\xaa\xaa\x02\0\0\0\0\x01\x08\0E\0\0\x1c\0\x02\0\0@\x11F\x90\n\0\0\x05\xc63d\x07\x13\x89\05\0\x08\xb7\xe0";
