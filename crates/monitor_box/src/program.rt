ghost use Rattle.std.specs.Prelude.{◌≡◌};
ghost use Rattle.monitor_box.specs.Monitor.{noted_flow, noted_length};

use crate::showing::text_of_totals;
use crate::{FlowKey, FlowTable, MonitorBox, MonitorValue, Totals};
use box_program::{Local, Move, Program};
use packet_headers::{steering_sum, view};
use plain_text::{Bytes, NoMemory, Text};
use std::alloc::Global;

/// The places of the program: the flow's table is next; the totals are next, for a flow's packet or for another; the
/// packet goes out; the end.
const COUNTS_FLOW: u32 = 0;

const ADDS_FLOW: u32 = 1;

const ADDS_OTHER: u32 = 2;

const EMITS: u32 = 3;

const ENDS: u32 = 4;

impl Program for MonitorBox {
    ghost use Rattle.std.specs.Prelude.{◌≡◌, ◌≤◌};
    ghost use Rattle.monitor_box.specs.Monitor.{Fits};
    ghost use Rattle.monitor_box.specs.Boxes.{box_meaning, box_lawful};

    type Value = MonitorValue;

    ghost meaning = { box_meaning };

    ghost fits = { λ _. Fits };

    ghost lawful = { box_lawful };

    fn vars(&self) -> u32 {
        self.shards + 1
    }

    fn fresh(&self, alloc: Global, var: u32) -> Result<MonitorValue, NoMemory> {
        if var == 0 {
            Ok(MonitorValue::Totals(Totals::new()))
        } else {
            Ok(MonitorValue::Table(FlowTable::new(alloc)))
        }
    }

    fn begin(&self, frame: &[u8], original: u32) -> Local {
        let Ok(flow) = view(frame, original) else {
            return Local {
                at: ADDS_OTHER,
                regs: [0; 12],
            };
        };
        Local {
            at: COUNTS_FLOW,
            regs: [
                steering_sum(&flow),
                u64::from(flow.protocol),
                u64::from(flow.source),
                u64::from(flow.source_port),
                u64::from(flow.dest),
                u64::from(flow.dest_port),
                u64::from(original),
                0,
                0,
                0,
                0,
                0,
            ],
        }
    }

    fn next(&self, local: &Local) -> Move {
        match local.at {
            COUNTS_FLOW => Move::Access(1 + (local.regs[0] % u64::from(self.shards)) as u32),
            ADDS_FLOW | ADDS_OTHER => Move::Access(0),
            EMITS => Move::Emit,
            _ => Move::End,
        }
    }

    fn touch(
        &self,
        _alloc: Global,
        _var: u32,
        value: &mut MonitorValue,
        local: &mut Local,
    ) -> Result<(), NoMemory> {
        match value {
            MonitorValue::Table(flows) => {
                flows.count(noted_flow(local), noted_length(local))?;
                local.at = ADDS_FLOW;
            }
            MonitorValue::Totals(totals) => {
                *totals = if local.at == ADDS_FLOW {
                    totals.with_flow_packet(noted_length(local))
                } else {
                    totals.with_other_packet()
                };
                local.at = EMITS;
            }
        }
        Ok(())
    }

    fn look(&self, _var: u32, _value: &MonitorValue, _local: &mut Local) {}

    fn told(&self, _answer: u64, _local: &mut Local) {}

    fn emitted(&self, local: &mut Local) {
        local.at = ENDS;
    }

    fn packet_out(
        &self,
        alloc: Global,
        frame: &[u8],
        _original: u32,
        _local: &Local,
    ) -> Result<Bytes, NoMemory> {
        Bytes::of(alloc, frame)
    }

    fn copy_value(
        &self,
        _alloc: Global,
        _var: u32,
        value: &MonitorValue,
    ) -> Result<MonitorValue, NoMemory> {
        match value {
            MonitorValue::Totals(totals) => Ok(MonitorValue::Totals(*totals)),
            MonitorValue::Table(flows) => Ok(MonitorValue::Table(flows.copy()?)),
        }
    }

    fn show(&self, alloc: Global, _var: u32, value: &MonitorValue) -> Result<Text, NoMemory> {
        match value {
            MonitorValue::Totals(totals) => text_of_totals(alloc, totals),
            MonitorValue::Table(flows) => flows.text(alloc),
        }
    }
}

/// The flow that a packet noted as it began.
fn noted_flow(local: &Local) -> FlowKey
    ensures { result ≡ noted_flow local.now }
{
    FlowKey {
        protocol: (local.regs[1] % (1 << 8)) as u8,
        source: (local.regs[2] % (1 << 32)) as u32,
        source_port: (local.regs[3] % (1 << 16)) as u16,
        dest: (local.regs[4] % (1 << 32)) as u32,
        dest_port: (local.regs[5] % (1 << 16)) as u16,
    }
}

/// The bytes on the wire that it noted.
fn noted_length(local: &Local) -> u64
    ensures { result ≡ noted_length local.now }
{
    local.regs[6]
}
