ghost use Rattle.std.specs.Prelude.{◌≡◌, ◌++◌, IfOk, OnOk};
ghost use Rattle.std.specs.String.{string_bytes};
ghost use Rattle.flow_text.specs.Texts.{address_text, endpoint_text};

use plain_text::{NoMemory, Text, put_decimal};
use std::alloc::Global;

/// An IPv4 address as four decimal numbers, such as `10.0.0.5`.
pub fn address_text(alloc: Global, address: u32) -> Result<Text, NoMemory>
    ensures { IfOk result (λ text. text ≡ address_text address) }
{
    let mut text = String::new(alloc);
    put_address(&mut text, address)?;
    Text::of(alloc, text.as_str())
}

/// An IPv4 address and a port, such as `10.0.0.5:5000`.
pub fn endpoint_text(alloc: Global, address: u32, port: u16) -> Result<Text, NoMemory>
    ensures { IfOk result (λ text. text ≡ endpoint_text address port) }
{
    let mut text = String::new(alloc);
    put_address(&mut text, address)?;
    text.push_str(":")?;
    put_decimal(&mut text, u64::from(port))?;
    Text::of(alloc, text.as_str())
}

/// Appends an address to a text.
fn put_address(text: &mut String, address: u32) -> Result<(), NoMemory>
    ensures { OnOk result (string_bytes text.new ≡ string_bytes text.old ++ address_text address) }
{
    put_decimal(text, u64::from(address >> 24))?;
    text.push_str(".")?;
    put_decimal(text, u64::from((address >> 16) % 256))?;
    text.push_str(".")?;
    put_decimal(text, u64::from((address >> 8) % 256))?;
    text.push_str(".")?;
    put_decimal(text, u64::from(address % 256))
}
