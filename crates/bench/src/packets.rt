ghost use Rattle.plain_text.specs.Packets.{IsShort};
ghost use Rattle.plain_text.specs.declared.limit.TheConstants.{MOST_PACKETS};
ghost use Rattle.std.specs.Prelude.{◌≤◌, All, IfOk, length};

use anyhow::ensure;
use plain_text::{MOST_PACKETS, Packets};
use std::alloc::Global;
use traffic_gen::make;

/// This number of generated packets.
pub fn make_packets(alloc: Global, count: u64) -> anyhow::Result<Packets>
    ensures few { IfOk result (λ packets. length packets ≤ MOST_PACKETS) }
    ensures short { IfOk result (All IsShort) }
{
    ensure!(
        count <= u64::from(MOST_PACKETS),
        "{count} packets are too many"
    );
    Ok(make(alloc, 1, count)?)
}
