ghost use Rattle.std.specs.Prelude.{◌≡◌, [], length, slice_get, IfOk, OnOk, OnErr};
ghost use Rattle.monitor_box.specs.Flows.{with_packet};
ghost use Rattle.monitor_box.specs.Shown.{flows_text};

use crate::copied::CopiedFlows;
use crate::showing::text_of_flow;
use crate::{FlowCount, FlowKey};
use indexmap::IndexMap;
use plain_text::{NoMemory, Text};
use std::alloc::Global;
use std::marker::Model;

/// Where the counts stand.
#[derive(Debug, Drop)]
enum Counts {
    /// In a map, which finds each by its flow.
    Indexed(IndexMap<FlowKey, FlowCount>),
    Copied(CopiedFlows),
}

/// The counts of flows, in the order in which the flows were first seen. Contracts see the list of the flows with their
/// counts.
#[derive(Debug, Drop)]
pub struct FlowTable {
    counts: Counts,
}

impl Model for FlowTable {
    ghost use Rattle.std.specs.Prelude.{List};
    ghost use Rattle.monitor_box.specs.declared.counts.FlowKey.{FlowKey};
    ghost use Rattle.monitor_box.specs.declared.counts.FlowCount.{FlowCount};

    ghost Value = { List (FlowKey × FlowCount) };

    ghost use Rattle.monitor_box.specs.Held.{held};

    ghost view = { λ t. held t.counts };
}

/// Counts a packet of a flow, of this number of bytes. A flow that is new goes last.
fn count_in(
    counts: &mut IndexMap<FlowKey, FlowCount>,
    flow: FlowKey,
    length: u64,
) -> Result<(), NoMemory>
    ensures ok { OnOk result (counts.new.entries ≡ with_packet flow length counts.old.entries) }
    ensures err { OnErr result (counts.new.entries ≡ counts.old.entries) }
{
    let known = counts.get(&flow).copied();
    let earlier = known.unwrap_or(FlowCount::new());
    counts.insert(flow, earlier.with_packet(length))?;
    Ok(())
}

impl FlowTable {
    /// No flows. It takes no memory.
    pub fn new(alloc: Global) -> Self
        ensures { result ≡ [] }
    {
        FlowTable {
            counts: Counts::Indexed(IndexMap::new(alloc)),
        }
    }

    /// Counts a packet of a flow, of this number of bytes. A flow that is new goes last.
    pub fn count(&mut self, flow: FlowKey, length: u64) -> Result<(), NoMemory>
        ensures ok { OnOk result (self.new ≡ with_packet flow length self.old) }
        ensures err { OnErr result (self.new ≡ self.old) }
    {
        match &mut self.counts {
            Counts::Indexed(counts) => count_in(counts, flow, length),
            Counts::Copied(copied) => {
                let mut counts = copied.indexed()?;
                count_in(&mut counts, flow, length)?;
                self.counts = Counts::Indexed(counts);
                Ok(())
            }
        }
    }

    /// A copy with the same flows, in the same order. It is one of blocks of memory until it counts a packet: mostly it
    /// is kept, and counts none. The copy of such a copy finds its flows again.
    pub fn copy(&self) -> Result<Self, NoMemory>
        ensures { IfOk result (λ copy. copy ≡ self.now) }
    {
        let counts = match &self.counts {
            Counts::Indexed(counts) => Counts::Copied(CopiedFlows::of(counts)?),
            Counts::Copied(copied) => Counts::Indexed(copied.indexed()?),
        };
        Ok(FlowTable { counts })
    }

    /// How many flows there are.
    fn len(&self) -> usize
        ensures { result ≡ length self.now }
    {
        match &self.counts {
            Counts::Indexed(counts) => counts.len(),
            Counts::Copied(copied) => copied.len(),
        }
    }

    /// The flow at an index, with its count.
    fn get(&self, at: usize) -> Option<(FlowKey, FlowCount)>
        ensures { result ≡ slice_get self.now at }
    {
        match &self.counts {
            Counts::Indexed(counts) => {
                let (flow, count) = counts.get_index(at)?;
                Some((*flow, *count))
            }
            Counts::Copied(copied) => copied.get(at),
        }
    }

    /// The flows with their counts in their order, with `; ` between two, or `-` where there is none.
    pub fn text(&self, alloc: Global) -> Result<Text, NoMemory>
        ensures { IfOk result (λ text. text ≡ flows_text self.now) }
    {
        let Some((flow, count)) = self.get(0) else {
            return Text::of(alloc, "-");
        };
        let mut text = String::new(alloc);
        text.push_str(text_of_flow(alloc, &flow, &count)?.as_str())?;
        for at in 1..self.len() {
            if let Some((flow, count)) = self.get(at) {
                text.push_str("; ")?;
                text.push_str(text_of_flow(alloc, &flow, &count)?.as_str())?;
            }
        }
        Text::of(alloc, text.as_str())
    }
}
