ghost use Rattle.std.specs.Prelude.{◌≡◌, ◌<◌, length};
ghost use Rattle.box_program.specs.Hands.{FitsProgram};
ghost use Rattle.master_core.specs.Mastered.{value_of};

use crate::frames::{
    OTHER_QUERY_FROM_39276, OTHER_QUERY_FROM_39278, QUERY_FROM_39276, QUERY_FROM_39278,
};
use crate::running::{four_ports, make, shows_one_port, two_packets};
use box_program::Program;
use master_core::{Master, Stepped};
use nat_box::NatBox;
use plain_text::{NoMemory, Packet};
use std::alloc::Global;
use std::test::Fail;

/// What both packets are told, as the time in microseconds and as a random word.
const TOLD: u64 = 100_000_005;

/// The bit of the first move in the number of an order; each move after it has the next lower one. No race has more
/// than 20 moves.
const FIRST_MOVE: u32 = 1 << 19;

/// How many orders there are. A packet looks for its mapping in its 3rd move and maps its source in its 7th. It makes 9
/// moves where it is mapped first; 5 where it finds that mapping; and 11 where it looked before, and gives its own port
/// up.
///
/// Say thread 0 is mapped first, after j moves of thread 1. With j up to 2 thread 1 finds the mapping: C(6 + j, j) C(7
/// - j, 2) orders, which are 21, 105 and 280. With j from 3 to 6 it looked before: C(6 + j, j) C(13 - j, 2) orders,
/// which are 3,780, 7,560, 12,936 and 19,404. Together 44,086, and as many where thread 1 is first.
const ORDERS: u32 = 88_172;

/// What has become of a race of two packets, one on each thread.
#[derive(Clone, Copy)]
struct Race {
    /// Whether each packet has ended.
    ended: [bool; 2],
    /// The port from which each thread sent its query out; 0 where it sent nothing or something else.
    ports: [u16; 2],
}

/// The query of each thread from either of the two even ports.
const SENT: [[(&[u8; 42], u16); 2]; 2] = [
    [(&QUERY_FROM_39276, 39_276), (&QUERY_FROM_39278, 39_278)],
    [
        (&OTHER_QUERY_FROM_39276, 39_276),
        (&OTHER_QUERY_FROM_39278, 39_278),
    ],
];

/// The port from which a thread sent these bytes out; 0 where they are something else.
fn port_of(thread: usize, sent: &[u8]) -> u16
    requires { thread < 2 }
{
    for (frame, port) in &SENT[thread] {
        if sent == frame.as_slice() {
            return *port;
        }
    }
    0
}

/// Makes the next move of a thread, if it can be made.
fn go_on<P: Program>(
    alloc: Global,
    master: &mut Master<P>,
    program: &P,
    packets: &[Packet; 2],
    race: &mut Race,
    thread: u32,
) -> bool
    requires program { FitsProgram (P.meaning program.now) (P.fits program.now)
        value_of master.old.vars }
    requires threads { length master.old.threads ≡ 2 }
    requires thread_in { thread < 2 }
    ensures fits { FitsProgram (P.meaning program.now) (P.fits program.now)
        value_of master.new.vars }
    ensures threads { length master.new.threads ≡ 2 }
{
    let place = thread as usize;
    match make(alloc, master, program, thread, TOLD, &packets[place]) {
        Stepped::Took(_) | Stepped::Did(_) => true,
        Stepped::Emitted(output) => {
            race.ports[place] = port_of(place, output.packet.bytes.as_slice());
            true
        }
        Stepped::Ended(_) => {
            race.ended[place] = true;
            true
        }
        Stepped::Idle | Stepped::NotTurn { .. } | Stepped::NoMemory => false,
    }
}

/// Runs both packets to their ends. Where both have moves left, the bits of the order say which thread makes the next
/// one.
///
/// It gives the order after this one, if there is one: as this one up to the last move that thread 1 could have made in
/// place of thread 0. There thread 1 makes it, and thread 0 makes all moves behind it that it can.
fn run<P: Program>(
    alloc: Global,
    master: &mut Master<P>,
    program: &P,
    packets: &[Packet; 2],
    order: u32,
    race: &mut Race,
) -> Result<Option<u32>, NoMemory>
    requires program { FitsProgram (P.meaning program.now) (P.fits program.now)
        value_of master.old.vars }
    requires threads { length master.old.threads ≡ 2 }
    ensures fits { FitsProgram (P.meaning program.now) (P.fits program.now)
        value_of master.new.vars }
    ensures threads { length master.new.threads ≡ 2 }
{
    let mut next = None;
    let mut so_far = 0;
    let mut bit = FIRST_MOVE;
    for _turn in 0..20 {
        let [first_ended, second_ended] = race.ended;
        if first_ended && second_ended {
            return Ok(next);
        }
        let is_second = !second_ended && (first_ended || order & bit != 0);
        if is_second {
            so_far |= bit;
        } else if !second_ended {
            next = Some(so_far | bit);
        }
        if !go_on(alloc, master, program, packets, race, u32::from(is_second)) {
            return Err(NoMemory);
        }
        bit /= 2;
    }
    Ok(next)
}

/// Whether this port stands for the endpoint, in both tables, and the other three are free.
fn one_port_stands<P: Program>(
    alloc: Global,
    master: &Master<P>,
    program: &P,
    port: u16,
) -> Result<bool, NoMemory>
    requires program { FitsProgram (P.meaning program.now) (P.fits program.now)
        value_of master.now.vars }
{
    let (mapping, binding) = match port {
        39_276 => (
            "udp 10.0.0.5:5000 39276 100000005",
            "udp 39276 10.0.0.5:5000",
        ),
        39_278 => (
            "udp 10.0.0.5:5000 39278 100000005",
            "udp 39278 10.0.0.5:5000",
        ),
        _ => return Ok(false),
    };
    shows_one_port(alloc, master, program, mapping, binding)
}

/// Runs a race on a fresh master, and gives the next order: whether both packets went out from one port, which alone
/// stands then.
fn goes_well<P: Program>(
    alloc: Global,
    master: &mut Master<P>,
    program: &P,
    packets: &[Packet; 2],
    order: u32,
) -> Result<(bool, Option<u32>), NoMemory>
    requires program { FitsProgram (P.meaning program.now) (P.fits program.now)
        value_of master.old.vars }
    requires threads { length master.old.threads ≡ 2 }
{
    let mut race = Race {
        ended: [false; 2],
        ports: [0; 2],
    };
    let next = run(alloc, master, program, packets, order, &mut race)?;
    let [port, other_port] = race.ports;
    let stands = one_port_stands(alloc, master, program, port)?;
    Ok((stands && port == other_port, next))
}

/// Races in this order, and gives the next one: whether it goes well.
fn race_in(
    alloc: Global,
    program: &NatBox,
    packets: &[Packet; 2],
    order: u32,
) -> Result<(bool, Option<u32>), NoMemory> {
    let mut master = Master::fresh(alloc, program, 2)?;
    goes_well(alloc, &mut master, program, packets, order)
}

/// Races in every order: the number of orders, if it goes well in each.
fn race_in_all(
    alloc: Global,
    program: &NatBox,
    packets: &[Packet; 2],
) -> Result<Option<u32>, NoMemory> {
    let mut next = Some(0);
    for orders in 0..=ORDERS {
        let Some(order) = next else {
            return Ok(Some(orders));
        };
        let (well, after) = race_in(alloc, program, packets, order)?;
        if !well {
            return Ok(None);
        }
        next = after;
    }
    Ok(None)
}

/// Races the two packets in every order.
fn race_two_packets(alloc: Global) -> Result<Option<u32>, NoMemory> {
    race_in_all(alloc, &four_ports(), &two_packets(alloc)?)
}

#[test]
fn a_race_in_every_order(rt: HostRuntime) -> Result<(), Fail> {
    assert!(rt; race_two_packets(rt.alloc())? == Some(ORDERS));
    Ok(())
}
