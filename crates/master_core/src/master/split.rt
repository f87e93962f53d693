ghost use Rattle.std.specs.Prelude.{◌≡◌};
ghost use Rattle.master_core.specs.Mastered.{master_of, IsBounded};

use super::Master;
use crate::{ThreadPart, VarPart};
use box_program::Program;

/// A master taken apart: the part of each variable and that of each thread, by their numbers.
#[derive(Drop)]
pub struct MasterParts<P: Program> {
    pub vars: Vec<VarPart<P::Value>>,
    pub threads: Vec<ThreadPart>,
}

impl<P: Program> Master<P> {
    /// The parts of the master, which are within the bounds of a master. It takes no memory.
    pub fn split(self) -> MasterParts<P>
        ensures parts { master_of result.vars.items result.threads.items ≡ self }
        ensures bounded { IsBounded result.vars.items result.threads.items }
    {
        MasterParts {
            vars: self.vars,
            threads: self.threads,
        }
    }

    /// The master of these parts: it stands for each list of moves for which they do. It takes no memory.
    pub fn of_parts(parts: MasterParts<P>) -> Self
        requires { IsBounded parts.vars.items parts.threads.items }
        ensures { result ≡ master_of parts.vars.items parts.threads.items }
    {
        Master {
            vars: parts.vars,
            threads: parts.threads,
        }
    }
}
