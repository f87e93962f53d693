/// A file of the system, for what it was opened.
#[derive(Drop)]
pub enum RealFile<F> {
    Reading(F),
    /// One that was read to its end, and closed.
    Ended,
    Writing(F),
}
