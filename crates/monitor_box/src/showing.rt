ghost use Rattle.std.specs.Prelude.{◌≡◌, IfOk};
ghost use Rattle.monitor_box.specs.Shown.{totals_text, flow_text};

use crate::{FlowCount, FlowKey, Totals};
use flow_text::{endpoint_text, protocol_text};
use plain_text::{NoMemory, Text, put_decimal};
use std::alloc::Global;

/// The text of the totals.
pub(crate) fn text_of_totals(alloc: Global, totals: &Totals) -> Result<Text, NoMemory>
    ensures { IfOk result (λ text. text ≡ totals_text totals.now) }
{
    let mut text = String::new(alloc);
    text.push_str("packets ")?;
    put_decimal(&mut text, totals.packets)?;
    text.push_str(" bytes ")?;
    put_decimal(&mut text, totals.bytes)?;
    text.push_str(" other ")?;
    put_decimal(&mut text, totals.other)?;
    Text::of(alloc, text.as_str())
}

/// The text of one flow with its counts.
pub(crate) fn text_of_flow(
    alloc: Global,
    flow: &FlowKey,
    count: &FlowCount,
) -> Result<Text, NoMemory>
    ensures { IfOk result (λ text. text ≡ flow_text (flow.now, count.now)) }
{
    let mut text = String::new(alloc);
    text.push_str(protocol_text(alloc, flow.protocol)?.as_str())?;
    text.push_str(" ")?;
    text.push_str(endpoint_text(alloc, flow.source, flow.source_port)?.as_str())?;
    text.push_str(" ")?;
    text.push_str(endpoint_text(alloc, flow.dest, flow.dest_port)?.as_str())?;
    text.push_str(" packets ")?;
    put_decimal(&mut text, count.packets)?;
    text.push_str(" bytes ")?;
    put_decimal(&mut text, count.bytes)?;
    Text::of(alloc, text.as_str())
}
