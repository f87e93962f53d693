//! The boxes of the program.
use crate::agreeing::released_by;
use crate::racing::Stage;
use balancer_box::{Backend, BalancerBox, BalancerSettings, no_backends};
use box_program::CountBox;
use monitor_box::MonitorBox;
use nat_box::{NatBox, NatSettings};
use std::sync::Wait;
use std::thread::Threads;

/// A kind of box.
#[derive(Clone, Copy, Debug, PartialEq, Eq)]
pub enum Which {
    Count,
    Monitor,
    Nat,
    Balancer,
}

/// All kinds of boxes, and how many of 200 packets each sends out.
pub const ALL: [(Which, u64); 4] = [
    (Which::Count, 200),
    (Which::Monitor, 200),
    (Which::Nat, 184),
    (Which::Balancer, 168),
];

/// A NAT in front of 10.0.0.0/8, with two tables of each kind. Its ports are none to which a packet goes from outside.
pub fn nat() -> NatBox {
    NatBox::new(NatSettings::basic(2, 0x0a00_0000, 8, 0xcb00_7101, 40_000, 41_023))
}

/// A balancer before the server that the queries go to, with two backends.
fn balancer() -> BalancerBox {
    let mut backends = no_backends();
    backends.push(Backend {
        address: 0x0a01_0001,
        port: 53,
    });
    backends.push(Backend {
        address: 0x0a01_0002,
        port: 53,
    });
    BalancerBox::new(BalancerSettings {
        shards: 2,
        address: 0xc633_6407,
        port: 53,
        backends,
        closing: None,
    })
}

/// How many outputs a box releases by these stages, where all is as it is to be.
pub fn released_of<R: AllocGlobal + Threads + Wait + Sync>(
    rt: &R,
    which: Which,
    threads: u32,
    packets: u32,
    stages: &[Stage],
) -> Option<u64> {
    match which {
        Which::Count => {
            released_by(
                rt,
                CountBox::new(),
                CountBox::new(),
                threads,
                packets,
                stages,
            )
        }
        Which::Monitor => {
            let (program, same) = (MonitorBox::new(2), MonitorBox::new(2));
            released_by(rt, program, same, threads, packets, stages)
        }
        Which::Nat => released_by(rt, nat(), nat(), threads, packets, stages),
        Which::Balancer => released_by(rt, balancer(), balancer(), threads, packets, stages),
    }
}
