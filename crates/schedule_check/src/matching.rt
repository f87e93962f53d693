ghost use Rattle.std.specs.Prelude.{◌≡◌, ℕ, IfOk, MatchOption};
ghost use Rattle.plain_text.specs.declared.packet.Packet as packet_of;
ghost use Rattle.plain_text.specs.declared.packet.Unit as unit_of;
ghost use Rattle.schedule_check.specs.Counting.{count_in, sent_like};
ghost use Rattle.schedule_check.specs.Unmatched.{FirstUnmatched};
ghost use Rattle.recovery_world.specs.Matching.{IsMatched};

use crate::content::content_of;
use crate::counts::Counts;
use plain_machine::Emission;
use plain_text::{NoMemory, Packet, Unit};
use std::alloc::Global;

/// The number, from 1, of the first released packet that has no emission of its own; `None` where each has one.
///
/// A packet and an emission are the same where their seconds, their fractions in nanoseconds, their lengths on the wire
/// and their bytes are. The fractions of the released packets are in `unit`, and those of the emissions in
/// `other_unit`. The order of the emissions says nothing. Time and memory grow with the bytes of both, and no faster.
pub fn first_unmatched(
    alloc: Global,
    unit: Unit,
    released: &[Packet],
    other_unit: Unit,
    emissions: &[Emission],
) -> Result<Option<u64>, NoMemory>
    ensures { IfOk result (λ found. MatchOption found
        (IsMatched unit released.now other_unit emissions.now)
        (FirstUnmatched unit released.now other_unit emissions.now)) }
{
    let mut left = count_emissions(alloc, other_unit, emissions)?;
    for (index, packet) in released.iter().enumerate() {
        let content = content_of(unit, packet);
        let count = left.count(content);
        if count == 0 {
            return Ok(Some(index as u64 + 1));
        }
        left.set(content, count - 1)?;
    }
    Ok(None)
}

/// How many emissions have each content.
fn count_emissions(
    alloc: Global,
    unit: Unit,
    emissions: &[Emission],
) -> Result<Counts<'_>, NoMemory>
    ensures { IfOk result (λ counts. (of : unit_of.Unit) (packet : packet_of.Packet)
        → count_in of packet counts ≡ sent_like of packet unit emissions.now) }
{
    let mut counts = Counts::new(alloc);
    for emission in emissions {
        let content = content_of(unit, &emission.packet);
        let count = counts.count(content);
        counts.set(content, count + 1)?;
    }
    Ok(counts)
}
