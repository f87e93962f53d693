/// What a frame on a link carries.
#[derive(Clone, Copy, Debug, PartialEq, Eq, PartialOrd, Ord)]
pub enum Kind {
    /// A log entry.
    Log,
    /// A packet that a thread sent out.
    Out,
}
