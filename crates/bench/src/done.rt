ghost use Rattle.std.specs.Prelude.{◌≤◌, length};

use box_program::Program;
use master_core::Master;

/// How many moves were made, how many entries were logged, and how many packets were sent out.
#[derive(Clone, Copy)]
pub struct Done {
    pub moves: u64,
    pub entries: u64,
    pub sent: u64,
}

impl Done {
    /// Nothing was done.
    pub fn nothing() -> Self {
        Done {
            moves: 0,
            entries: 0,
            sent: 0,
        }
    }

    /// What all threads of a master did, which made this number of moves.
    pub fn of<P: Program>(master: &Master<P>, threads: u32, moves: u64) -> Self
        requires { threads ≤ length master.now.threads }
    {
        let mut entries = 0u64;
        let mut sent = 0u64;
        for thread in 0..threads {
            let counts = master.counts(thread);
            entries = entries.saturating_add(counts.entries);
            sent = sent.saturating_add(counts.outputs);
        }
        Done {
            moves,
            entries,
            sent,
        }
    }
}
