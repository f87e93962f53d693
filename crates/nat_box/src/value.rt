use flow_boxes::Drops;
use nat_tables::{Mappings, Pool, Reverse};

/// The value of a variable of the box `nat`.
#[derive(Debug, Drop)]
pub enum NatValue {
    /// Of variable 0: how many packets were dropped, by reason. Reasons 1 to 6 are those for which a frame is no flow.
    /// 7 is a packet to a port with no mapping, 8 one for which no port was free, 9 one that neither comes from inside
    /// nor goes to the outside address, or goes from inside to inside. Where errors of ICMP go through, 7 is also one
    /// about a packet of no used mapping, and 9 one about no packet that the box may have translated. Where hosts have
    /// a limit, 10 is a packet that would need one mapping more than its host may have.
    Dropped(Drops),
    /// Of variable 1: the free outside ports.
    Free(Pool),
    /// Of variables 2 to 1 + S: mappings of inside endpoints.
    Mapped(Mappings),
    /// Of variables 2 + S to 1 + 2S: bound outside ports.
    Taken(Reverse),
}
