use crate::{Connections, Loads};
use flow_boxes::Drops;

/// The value of a variable of the box `balancer`.
#[derive(Debug, Drop)]
pub enum BalancerValue {
    /// Of variable 0: how many packets were dropped, by reason. Reasons 1 to 6 are those for which a frame is no flow.
    /// 7 is a packet of no connection that can begin none, 9 one that is neither to the virtual address and port nor
    /// from a backend.
    Dropped(Drops),
    /// Of variable 1: the load of each backend.
    Loaded(Loads),
    /// Of variables 2 to 1 + S: connections of clients.
    Connected(Connections),
}
