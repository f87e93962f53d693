ghost use Rattle.std.specs.Prelude.{◌≡◌, ◌≤◌, IfOk};

use input_logger::InputLog;
use plain_text::{NoMemory, Packets};
use std::alloc::Global;

/// The log of all packets of a capture, fed to 1 to 16 threads; `tags` says whether one tag is looked through.
pub fn log_all(
    alloc: Global,
    threads: u32,
    tags: bool,
    packets: Packets,
) -> Result<InputLog, NoMemory>
    requires some { 1 ≤ threads }
    requires few { threads ≤ 16 }
    ensures { IfOk result
        (λ log. log ≡ record { threads = threads; tags = tags; packets = packets }) }
{
    let mut log = InputLog::new(alloc, threads, tags)?;
    for packet in packets.into_vec() {
        log.feed(packet)?;
    }
    Ok(log)
}
