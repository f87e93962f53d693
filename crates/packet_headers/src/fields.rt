ghost use Rattle.std.specs.Prelude.{◌≡◌, ◌+◌, ◌<◌, length};
ghost use Rattle.packet_headers.specs.Fields.{AreBytes, word_at, long_at, put_word, put_long};

/// Where the fields of an Ethernet frame that carries IPv4 stand (RFC 791, section 3.1).
pub(crate) const ETHER_TYPE: usize = 12;

/// Where the IPv4 header of an Ethernet frame without a tag begins (RFC 894).
pub const IP_HEADER: usize = 14;

/// Where its total length stands, a word (RFC 791, section 3.1).
pub const TOTAL_LENGTH: usize = 16;

pub(crate) const FLAGS_AND_OFFSET: usize = 20;

/// Where its protocol stands, a byte.
pub const PROTOCOL: usize = 23;

/// Where its header checksum stands, a word.
pub const HEADER_CHECKSUM: usize = 24;

/// Where its source address stands, four bytes.
pub const SOURCE_ADDRESS: usize = 26;

/// Where its destination address stands, four bytes.
pub const DESTINATION_ADDRESS: usize = 30;

pub(crate) const IP_OPTIONS: usize = 34;

/// The 16-bit number at a place, high byte first.
pub fn word_at(frame: &[u8], place: usize) -> u16
    requires { place + 1 < length frame.now }
    ensures { result ≡ word_at frame.now place }
{
    u16::from_be_bytes([frame[place], frame[place + 1]])
}

/// The 32-bit number at a place, high byte first.
pub fn long_at(frame: &[u8], place: usize) -> u32
    requires { place + 3 < length frame.now }
    ensures value { result ≡ long_at frame.now place }
    ensures bytes { AreBytes frame.now }
{
    u32::from_be_bytes([
        frame[place],
        frame[place + 1],
        frame[place + 2],
        frame[place + 3],
    ])
}

/// Writes a 16-bit number at a place, high byte first.
pub fn put_word(frame: &mut [u8], place: usize, word: u16)
    requires { place + 1 < length frame.old }
    ensures { frame.new ≡ put_word frame.old place word }
{
    let [high, low] = word.to_be_bytes();
    frame[place] = high;
    frame[place + 1] = low;
}

/// Writes a 32-bit number at a place, high byte first.
pub fn put_long(frame: &mut [u8], place: usize, number: u32)
    requires { place + 3 < length frame.old }
    ensures { frame.new ≡ put_long frame.old place number }
{
    put_word(frame, place, (number >> 16) as u16);
    put_word(frame, place + 2, (number & 0xffff) as u16);
}
