ghost use Rattle.std.specs.Prelude.{◌≡◌, IfOk};
ghost use Rattle.flow_text.specs.Texts.{protocol_text};

use packet_headers::{TCP, UDP};
use plain_text::{NoMemory, Text, put_decimal};
use std::alloc::Global;

/// The text of a protocol by its number in the IPv4 header: `tcp` for 6, `udp` for 17, and the number for any other.
pub fn protocol_text(alloc: Global, protocol: u8) -> Result<Text, NoMemory>
    ensures { IfOk result (λ text. text ≡ protocol_text protocol) }
{
    match protocol {
        TCP => Text::of(alloc, "tcp"),
        UDP => Text::of(alloc, "udp"),
        _ => {
            let mut text = String::new(alloc);
            put_decimal(&mut text, u64::from(protocol))?;
            Text::of(alloc, text.as_str())
        }
    }
}
