ghost use Rattle.std.specs.Prelude.{◌≡◌, ◌+◌, ◌-◌, [], IfOk, OnOk, OnErr};
ghost use Rattle.nat_tables.specs.declared.host_counts.Host.{Host};
ghost use Rattle.nat_tables.specs.HostCounts.{host_of, same_host, host_count};
ghost use Rattle.nat_tables.specs.Ports.{one_if};

use crate::Endpoint;
use indexmap::IndexMap;
use plain_text::NoMemory;
use std::alloc::Global;
use std::marker::Model;

/// An inside address, by protocol.
#[derive(Clone, Copy, Debug, PartialEq, Eq, Hash)]
pub(crate) struct Host {
    protocol: u8,
    address: u32,
}

impl Host {
    /// The host of an endpoint.
    pub(crate) fn of(key: &Endpoint) -> Self
        ensures { result ≡ host_of key.now }
    {
        Host {
            protocol: key.protocol,
            address: key.address,
        }
    }
}

/// How many mappings each host has. A host that has none has no entry. Contracts see the entries.
#[derive(Debug, Drop)]
pub(crate) struct HostCounts {
    counts: IndexMap<Host, usize>,
}

impl Model for HostCounts {
    ghost use Rattle.std.specs.Prelude.{List, ℕ};
    ghost use Rattle.nat_tables.specs.declared.host_counts.Host.{Host};

    ghost Value = { List (Host × ℕ) };

    ghost view = { λ h. h.counts.entries };
}

impl HostCounts {
    /// No mappings. It takes no memory.
    pub(crate) fn new(alloc: Global) -> Self
        ensures { result ≡ [] }
    {
        HostCounts {
            counts: IndexMap::new(alloc),
        }
    }

    /// How many the host has.
    pub(crate) fn count(&self, host: Host) -> usize
        ensures { result ≡ host_count host self.now }
    {
        self.counts.get(&host).copied().unwrap_or(0)
    }

    /// Counts one more of the host. No memory has room for more mappings than a count can say.
    pub(crate) fn raise(&mut self, host: Host) -> Result<(), NoMemory>
        ensures ok { OnOk result ((other : Host) → host_count other self.new
            ≡ one_if (same_host host other) + host_count other self.old) }
        ensures err { OnErr result (self.new ≡ self.old) }
    {
        let Some(count) = self.count(host).checked_add(1) else {
            return Err(NoMemory);
        };
        self.counts.insert(host, count)?;
        Ok(())
    }

    /// Counts one less of the host. The entry of a host that has none left goes.
    pub(crate) fn lower(&mut self, host: Host)
        ensures { (other : Host) → host_count other self.new
            ≡ host_count other self.old - one_if (same_host host other) }
    {
        let count = self.count(host);
        if count > 1 {
            if let Some(entry) = self.counts.get_mut(&host) {
                *entry = count - 1;
            }
        } else {
            self.counts.swap_remove(&host);
        }
    }

    /// The same counts.
    pub(crate) fn copy(&self) -> Result<Self, NoMemory>
        ensures { IfOk result (λ copy. copy ≡ self.now) }
    {
        Ok(HostCounts {
            counts: self.counts.clone()?,
        })
    }
}
