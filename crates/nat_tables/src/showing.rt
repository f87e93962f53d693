ghost use Rattle.std.specs.Prelude.{◌≡◌, IfOk};
ghost use Rattle.nat_tables.specs.Shown.{pool_text, mapping_text, bound_text};

use crate::{Endpoint, Pool, PortKey, Slot};
use flow_text::{endpoint_text, protocol_text};
use packet_headers::{TCP, UDP};
use plain_text::{NoMemory, Text, put_decimal};
use std::alloc::Global;

/// The text of the pool: how many ports are free.
pub(crate) fn text_of_pool(alloc: Global, pool: &Pool) -> Result<Text, NoMemory>
    ensures { IfOk result (λ text. text ≡ pool_text pool.now) }
{
    let mut text = String::new(alloc);
    text.push_str("tcp ")?;
    put_decimal(&mut text, pool.free(TCP))?;
    text.push_str(" udp ")?;
    put_decimal(&mut text, pool.free(UDP))?;
    Text::of(alloc, text.as_str())
}

/// The text of one mapping.
pub(crate) fn text_of_mapping(alloc: Global, key: &Endpoint, slot: &Slot) -> Result<Text, NoMemory>
    ensures { IfOk result (λ text. text ≡ mapping_text (key.now, slot.now)) }
{
    let mut text = String::new(alloc);
    text.push_str(protocol_text(alloc, key.protocol)?.as_str())?;
    text.push_str(" ")?;
    text.push_str(endpoint_text(alloc, key.address, key.port)?.as_str())?;
    text.push_str(" ")?;
    put_decimal(&mut text, u64::from(slot.port))?;
    text.push_str(" ")?;
    put_decimal(&mut text, slot.last)?;
    Text::of(alloc, text.as_str())
}

/// The text of one bound port.
pub(crate) fn text_of_bound(alloc: Global, port: &PortKey, key: &Endpoint) -> Result<Text, NoMemory>
    ensures { IfOk result (λ text. text ≡ bound_text (port.now, key.now)) }
{
    let mut text = String::new(alloc);
    text.push_str(protocol_text(alloc, port.protocol)?.as_str())?;
    text.push_str(" ")?;
    put_decimal(&mut text, u64::from(port.port))?;
    text.push_str(" ")?;
    text.push_str(endpoint_text(alloc, key.address, key.port)?.as_str())?;
    Text::of(alloc, text.as_str())
}
