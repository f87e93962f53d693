use crate::{FlowTable, Totals};

/// The value of a variable of the box `monitor`.
#[derive(Debug, Drop)]
pub enum MonitorValue {
    /// Of variable 0.
    Totals(Totals),
    /// Of each other variable: the flows of one table.
    Table(FlowTable),
}
