/// How far a TCP connection has come, by the segments of it that were seen. It says how long its mapping is kept
/// without use (RFC 5382, REQ-5).
#[derive(Clone, Copy, Debug, PartialEq, Eq)]
pub enum Phase {
    /// It is not followed: the mapping is kept as long as its protocol says.
    Plain,
    /// It was not established yet: the mapping is kept for so many seconds, and at least one.
    Opening(u32),
    /// It was established: the mapping is kept as long as its protocol says.
    Established,
    /// It was ended: the mapping is kept for so many seconds, and at least one.
    Closing(u32),
    /// Its client ended it, and its server did not yet: the mapping is kept as long as its protocol says.
    EndedByClient,
    /// Its server ended it, and its client did not yet: the mapping is kept as long as its protocol says.
    EndedByServer,
    /// The mapping is kept for good: it is never idle, whatever is sent.
    Kept,
}

/// What a segment tells of its connection, by its control bits (RFC 9293, section 3.1).
#[derive(Clone, Copy, Debug, PartialEq, Eq)]
pub enum Segment {
    /// Nothing: it is none of the others.
    Silent,
    /// It begins one: SYN, and none of ACK, FIN and RST.
    Opens,
    /// It carries one on: ACK, and none of SYN, FIN and RST.
    Carries,
    /// It ends one: FIN or RST.
    Closes,
}
