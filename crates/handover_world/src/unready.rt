use thiserror::Error;

/// Why a system can't be handed over yet.
#[derive(Clone, Copy, Debug, PartialEq, Eq, Error)]
pub enum Unready {
    /// The master is down.
    #[error("down")]
    Down,
    /// So many entries that the master must follow, at least one, are not made again yet.
    #[error("left {0}")]
    Left(u64),
    /// So many released outputs, at least one, are not sent out again yet by the present master.
    #[error("behind {0}")]
    Behind(u64),
}
