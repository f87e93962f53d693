ghost use Rattle.std.specs.Prelude.{◌≡◌, IfOk};
ghost use Rattle.box_program.specs.Count.{numbered};

use plain_machine::{Bytes, NoMemory};
use std::alloc::Global;

/// The first byte of the number that is written into a packet, and the byte after its last.
const NUMBER_AT: usize = 2;

const NUMBER_END: usize = 6;

/// The packet with the low 32 bits of the number in bytes 2 to 5, big-endian; unchanged where it is shorter.
pub fn numbered_bytes(alloc: Global, bytes: &[u8], number: u64) -> Result<Bytes, NoMemory>
    ensures { IfOk result (λ out. out ≡ numbered bytes.now number) }
{
    let mut out = Vec::from_slice(alloc, bytes)?;
    write_number(&mut out, number);
    Ok(Bytes::from_vec(out))
}

/// Writes the low 32 bits of the number into bytes 2 to 5, where there are as many.
fn write_number(bytes: &mut [u8], number: u64)
    ensures { bytes.new ≡ numbered bytes.old number }
{
    if bytes.len() < NUMBER_END {
        return;
    }
    let low = (number % (1 << 32)) as u32;
    bytes[NUMBER_AT..NUMBER_END].copy_from_slice(&low.to_be_bytes());
}
