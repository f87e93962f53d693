ghost use Rattle.std.specs.Prelude.{◌≤◌};

/// The box `monitor`: it counts packets and bytes by flow, in a number of tables, and all packets in totals.
///
/// Variable 0 holds the totals, and the variables from 1 the tables. A packet that is a UDP or TCP flow's over IPv4
/// touches the table of its flow and then the totals; any other packet touches the totals alone. Each goes out
/// unchanged. A flow's table is 1 and the sum of its addresses, ports and protocol modulo the number of tables. Bytes
/// are counted by the packet's length on the wire.
#[derive(Debug, Drop)]
pub struct MonitorBox {
    /// The number of tables, 1 to 64.
    pub shards: u32,
    pub ghost some: { 1 ≤ shards },
    pub ghost few: { shards ≤ 64 },
}

impl MonitorBox {
    ghost use Rattle.std.specs.Prelude.{◌≡◌, ◌≤◌};
    ghost use Rattle.monitor_box.specs.Boxes.{box_with};

    /// The box with this number of tables.
    pub fn new(shards: u32) -> Self
        requires some { 1 ≤ shards }
        requires few { shards ≤ 64 }
        ensures { result ≡ box_with shards }
    {
        MonitorBox { shards }
    }
}
