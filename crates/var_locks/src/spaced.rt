//! The places where the variables of a round are at home.
ghost use Rattle.std.specs.Prelude.{◌≡◌, IfOk};

use master_core::VarPart;
use plain_text::NoMemory;
use std::alloc::Global;
use std::marker::Model;

/// How many unused words follow each variable: two cache lines of 64 bytes, so that threads that
/// touch different variables don't take a line from each other.
const ROOM: usize = 16;

/// A variable with room after it. A contract sees the variable alone.
#[derive(Drop)]
pub struct Slot<V> {
    pub(crate) part: VarPart<V>,
    room: [u64; ROOM],
}

impl<V> Model for Slot<V> {
    ghost use Rattle.master_core.specs.declared.parts.VarPart.{VarPart};

    ghost Value = { VarPart V };

    ghost view = { λ s. s.part };
}

impl<V> Slot<V> {
    /// A slot for this variable.
    pub(crate) fn of(part: VarPart<V>) -> Self
        ensures { result ≡ part }
    {
        Slot {
            part,
            room: [0; ROOM],
        }
    }

    /// The variable.
    pub(crate) fn into_part(self) -> VarPart<V>
        ensures { result ≡ self }
    {
        let Slot { part, room: _ } = self;
        part
    }
}

/// A slot for each of these variables.
pub(crate) fn slots_of<V: Drop>(
    alloc: Global,
    parts: Vec<VarPart<V>>,
) -> Result<Vec<Slot<V>>, NoMemory>
    ensures { IfOk result (λ slots. slots.items ≡ parts.items) }
{
    let mut slots = Vec::with_capacity(alloc, parts.len())?;
    for part in parts {
        slots.push(Slot::of(part))?;
    }
    Ok(slots)
}
