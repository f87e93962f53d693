//! The laws of the box's runs. Each is proved, and does nothing: a caller has it by the call.
ghost use Rattle.monitor_box.specs.Arrivals.{CountsFlow, CountsFlowAtRest, CountsOthers};
ghost use Rattle.monitor_box.specs.Arrivals.{CountsOthersAtRest};
ghost use Rattle.monitor_box.specs.Sums.{InEachRun, InEachRunAtRest, PacketsMatch, BytesMatch};
ghost use Rattle.monitor_box.specs.Sums.{PacketsAreSum, BytesAreSum};
ghost use Rattle.monitor_box.specs.FlowStanding.{FlowsStand};

/// After each move of each run, whatever its threads, its inputs and the order of its moves, the totals are the sum
/// over all flows of all tables, but for the packets that have touched their flow's table and not yet the totals. So
/// where no packet is in hand, they are that sum. All is modulo 2^64.
pub fn totals_match_flows()
    ensures packets { InEachRun PacketsMatch }
    ensures bytes { InEachRun BytesMatch }
    ensures packets_at_rest { InEachRunAtRest PacketsAreSum }
    ensures bytes_at_rest { InEachRunAtRest BytesAreSum }
{}

/// After each move of each run on packets of bytes, each flow of a table is one whose own sum tells this table, so that
/// no flow stands in two tables.
pub fn flows_stand_by_their_sums()
    ensures { FlowsStand }
{}

/// After each move of each run on packets of bytes, a flow's own table has exactly the flow's packets that were taken,
/// but for those in hand that have not come to the table yet: as many, and their bytes on the wire. So where no packet
/// is in hand, it has all of them. All is modulo 2^64.
pub fn flows_count_their_packets()
    ensures packets { CountsFlow (λ packet. 1) (λ count. count.packets) }
    ensures bytes { CountsFlow (λ packet. packet.original) (λ count. count.bytes) }
    ensures packets_at_rest { CountsFlowAtRest (λ packet. 1) (λ count. count.packets) }
    ensures bytes_at_rest { CountsFlowAtRest (λ packet. packet.original) (λ count. count.bytes) }
{}

/// The same of the packets that are no flow, which the totals count.
pub fn others_are_counted()
    ensures others { CountsOthers }
    ensures others_at_rest { CountsOthersAtRest }
{}
