ghost use Rattle.std.specs.Prelude.{◌≡◌, ℕ, ◌+◌, ◌%◌, ◌^◌, ◌<◌, ◌≤◌, slice_index, length, [], IfOk};
ghost use Rattle.std.specs.List.{remove, sum_by};
ghost use Rattle.nat_tables.specs.Ports.{with_port};
ghost use Rattle.nat_tables.specs.Placing.{groups_ports, group_count, FallsIn};

use crate::port_group::Group;
use plain_text::NoMemory;
use std::alloc::Global;
use std::marker::Model;

/// The free ports of one parity. A bit for each port and a count for each group make it short to copy, and a port is
/// found, taken out and put in by a walk over the counts. There is a bit for each port from the start, so that no
/// change takes memory.
#[derive(Debug, Drop)]
pub(crate) struct ParityPorts {
    count: usize,
    groups: Vec<Group>,
}

impl Model for ParityPorts {
    ghost use Rattle.std.specs.Prelude.{List};
    ghost use Rattle.nat_tables.specs.declared.port_group.Group.{Group};
    ghost use Rattle.nat_tables.specs.Placing.{AreCounted};

    ghost Value = { List Group };

    ghost view = { λ p. p.groups.items };

    ghost invariant = { λ p. AreCounted p.count p.groups.items };
}

/// The group of the port at the index, and the index among those of that group.
fn find_group(groups: &[Group], at: usize) -> (usize, u16)
    requires { at < sum_by group_count groups.now }
    ensures { FallsIn group_count groups.now at result.0 result.1 }
{
    let mut left = at;
    for (index, group) in groups.iter().enumerate() {
        let count = usize::from(group.count);
        if left < count {
            return (index, left as u16);
        }
        left -= count;
    }
    (0, 0)
}

impl ParityPorts {
    /// No free port.
    pub(crate) fn empty(alloc: Global) -> Result<Self, NoMemory>
        ensures { IfOk result (λ ports. (first : ℕ) → groups_ports first ports ≡ []) }
    {
        Ok(ParityPorts {
            count: 0,
            groups: vec![in alloc; Group::empty(); 64]?,
        })
    }

    /// How many ports are free.
    pub(crate) fn count(&self) -> usize
        ensures ports { (first : ℕ) → result ≡ length (groups_ports first self.now) }
        ensures few { result ≤ 2 ^ 15 }
    {
        self.count
    }

    /// Takes out the port at the index. `first` is the parity.
    pub(crate) fn take(&mut self, first: u16, at: usize) -> u16
        requires parity { first < 2 }
        requires within { at < length (groups_ports first self.old) }
        ensures port { result ≡ slice_index (groups_ports first self.old) at }
        ensures others { groups_ports first self.new ≡ remove (groups_ports first self.old) at }
    {
        let (index, left) = find_group(&self.groups, at);
        let port = self.groups[index].take(first + 1024 * index as u16, left);
        self.count -= 1;
        port
    }

    /// Puts a port in, and changes nothing where it is in. `first` is the parity.
    pub(crate) fn put(&mut self, first: u16, port: u16)
        requires parity { first ≡ port % 2 }
        ensures { groups_ports first self.new ≡ with_port port (groups_ports first self.old) }
    {
        let index = usize::from(port / 1024);
        if self.groups[index].put(first + 1024 * index as u16, port) {
            self.count += 1;
        }
    }

    /// The same ports.
    pub(crate) fn copy(&self) -> Result<Self, NoMemory>
        ensures { IfOk result (λ copy. copy ≡ self.now) }
    {
        Ok(ParityPorts {
            count: self.count,
            groups: self.groups.clone()?,
        })
    }
}
