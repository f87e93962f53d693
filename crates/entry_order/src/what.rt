/// What a logged move did.
#[derive(Clone, Copy, Debug, PartialEq, Eq)]
pub enum What {
    /// Touched one whole shared variable. The place counts the touches of this variable up to this one and with it.
    Access { var: u32, place: u64 },
    /// Read one whole shared variable and left it as it was, after this number of touches of it.
    Read { var: u32, after: u64 },
    /// Was told this moment, in microseconds.
    Clock(u64),
    /// Was told this random word.
    Draw(u64),
}
