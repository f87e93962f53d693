ghost use Rattle.std.specs.Prelude.{◌≡◌, length, slice_get, IfOk};

use crate::{FlowCount, FlowKey};
use indexmap::IndexMap;
use plain_text::NoMemory;
use std::marker::Model;

/// A copy of the counts of flows, in two blocks of memory: it takes no time for each flow, and finds none. Contracts see
/// the list of the flows with their counts.
#[derive(Debug, Drop)]
pub(crate) struct CopiedFlows {
    flows: Vec<FlowKey>,
    counts: Vec<FlowCount>,
}

impl Model for CopiedFlows {
    ghost use Rattle.std.specs.Prelude.{List};
    ghost use Rattle.std.specs.List.{zip};
    ghost use Rattle.monitor_box.specs.declared.counts.FlowKey.{FlowKey};
    ghost use Rattle.monitor_box.specs.declared.counts.FlowCount.{FlowCount};

    ghost Value = { List (FlowKey × FlowCount) };

    ghost view = { λ t. zip t.flows.items t.counts.items };
}

impl CopiedFlows {
    /// A copy of these counts, in their order.
    pub(crate) fn of(counts: &IndexMap<FlowKey, FlowCount>) -> Result<Self, NoMemory>
        ensures { IfOk result (λ copy. copy ≡ counts.now.entries) }
    {
        let alloc = *counts.allocator();
        Ok(CopiedFlows {
            flows: Vec::from_slice(alloc, counts.keys().as_slice())?,
            counts: Vec::from_slice(alloc, counts.values().as_slice())?,
        })
    }

    /// How many flows there are.
    pub(crate) fn len(&self) -> usize
        ensures { result ≡ length self.now }
    {
        self.flows.len().min(self.counts.len())
    }

    /// The flow at an index, with its count.
    pub(crate) fn get(&self, at: usize) -> Option<(FlowKey, FlowCount)>
        ensures { result ≡ slice_get self.now at }
    {
        Some((*self.flows.get(at)?, *self.counts.get(at)?))
    }

    /// The same counts, found by their flow. Each flow of a copy stands in it once; where one did not, the answer is
    /// as for want of memory.
    pub(crate) fn indexed(&self) -> Result<IndexMap<FlowKey, FlowCount>, NoMemory>
        ensures { IfOk result (λ indexed. indexed.entries ≡ self.now) }
    {
        let mut indexed = IndexMap::with_capacity(*self.flows.allocator(), self.len())?;
        for at in 0..self.len() {
            if let Some((flow, count)) = self.get(at) {
                if indexed.insert(flow, count)?.is_some() {
                    return Err(NoMemory);
                }
            }
        }
        Ok(indexed)
    }
}
