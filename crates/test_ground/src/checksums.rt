use inet_checksum::{adjust16, adjust32, checksum, sum};

/// The example of RFC 1071, section 3: the words 0001 f203 f4f5 f6f7.
const NUMERICAL_EXAMPLE: [u8; 8] = [0x00, 0x01, 0xf2, 0x03, 0xf4, 0xf5, 0xf6, 0xf7];

/// The IPv4 header of a DNS query from 10.0.0.5 to 198.51.100.7, with its checksum.
const HEADER: [u8; 20] = [
    0x45, 0x00, 0x00, 0x1c, 0x00, 0x01, 0x00, 0x00, 0x40, 0x11, 0x46, 0x91, 0x0a, 0x00, 0x00, 0x05,
    0xc6, 0x33, 0x64, 0x07,
];

/// What bytes are, the bytes, the sum of their words, and their checksum. An odd last byte is the high one of its word.
const SUMS: [(&str, &[u8], u16, u16); 8] = [
    ("nothing", &[], 0, 0xffff),
    ("zeros", &[0; 33], 0, 0xffff),
    ("ones", &[0xff; 6], 0xffff, 0),
    ("the example", &NUMERICAL_EXAMPLE, 0xddf2, 0x220d),
    (
        "seven bytes of it",
        &[0x00, 0x01, 0xf2, 0x03, 0xf4, 0xf5, 0xf6],
        0xdcfb,
        0x2304,
    ),
    ("a header", &HEADER, 0xffff, 0),
    (
        "before the change",
        &[0xcd, 0x7a, 0x55, 0x55],
        0x22d0,
        0xdd2f,
    ),
    (
        "after the change",
        &[0xcd, 0x7a, 0x32, 0x85],
        0xffff,
        0x0000,
    ),
];

/// Whether all bytes of the table have their sums.
fn all_add_up() -> bool {
    for (_, bytes, total, taken) in &SUMS {
        if sum(bytes) != *total || checksum(bytes) != *taken {
            return false;
        }
    }
    true
}

/// A checksum, a word that changes, what it becomes, and the checksum then.
const CHANGES: [(u16, u16, u16, u16); 3] = [
    // RFC 1624, section 4: the other words add up to 0xcd7a.
    (0xdd2f, 0x5555, 0x3285, 0x0000),
    // A change to the same word changes nothing but all ones.
    (0x1234, 0xabcd, 0xabcd, 0x1234),
    (0xffff, 0xabcd, 0xabcd, 0x0000),
];

/// Whether all changes of the table are made. 10.0.0.5 becomes 203.0.113.1, too.
fn all_are_adjusted() -> bool {
    for (old, from, to, new) in &CHANGES {
        if adjust16(*old, *from, *to) != *new {
            return false;
        }
    }
    adjust32(0x4691, 0x0a00_0005, 0xcb00_7101) == 0x1494
}

#[test]
fn sums_words_and_adjusts_checksums(rt: HostRuntime) {
    assert!(rt; all_add_up() && all_are_adjusted());
}
