//! Packets through the counting box on one thread, as the plain player makes its moves or as a master does.
ghost use Rattle.plain_text.specs.declared.limit.TheConstants.{MOST_PACKETS};
ghost use Rattle.std.specs.Prelude.{◌≡◌, ◌≤◌, false, length};
ghost use Rattle.box_program.specs.Hands.{FitsProgram, has_hand};
ghost use Rattle.master_core.specs.Mastered.{value_of};
ghost use Rattle.plain_player.specs.Playing.{place_in_hand};

use crate::one_packet::play_one;
use crate::packets::make_packets;
use crate::words::next_number;
use anyhow::{Context, anyhow, bail};
use box_program::{CountBox, Program};
use master_core::Master;
use plain_machine::{PlainMove, Schedule};
use plain_player::{MoveError, Player};
use plain_text::{MOST_PACKETS, NoMemory, Packet, Packets};
use std::alloc::Global;
use std::env::Args;

/// How many moves were made, and how many packets were sent out.
#[derive(Clone, Copy)]
struct Done {
    moves: u64,
    sent: u64,
}

/// What a player made and sent out.
#[derive(Drop)]
struct Played {
    schedule: Schedule,
    sent: Packets,
}

/// Plays each packet to its end with the plain player, which logs nothing.
fn play_plainly<P: Program>(
    alloc: Global,
    program: &P,
    player: &mut Player<P::Value>,
    packets: &[Packet],
    played: &mut Played,
) -> Result<(), MoveError>
    requires few { length packets.now ≤ MOST_PACKETS }
    requires fits { FitsProgram (P.meaning program.now) (P.fits program.now)
        (λ value. value) player.old.values }
    requires ended { has_hand (place_in_hand player.old 0) ≡ false }
    requires fresh { player.old.made ≡ 0 }
{
    let plain = PlainMove {
        thread: 0,
        answer: None,
    };
    for packet in packets {
        player.step(alloc, program, plain, Some(packet))?;
        played.schedule.push(plain)?;
        'moves: while player.in_hand(0) {
            if let Some(emission) = player.step(alloc, program, plain, Some(packet))? {
                played.sent.push(emission.packet)?;
            }
            played.schedule.push(plain)?;
        }
    }
    Ok(())
}

/// The same with a fresh player.
fn play_with_player<P: Program>(
    alloc: Global,
    program: &P,
    packets: &[Packet],
) -> Result<Done, MoveError>
    requires { length packets.now ≤ MOST_PACKETS }
{
    let mut player = Player::fresh(alloc, program, 1)?;
    let mut played = Played {
        schedule: Schedule::new(alloc),
        sent: Packets::new(alloc),
    };
    play_plainly(alloc, program, &mut player, packets, &mut played)?;
    Ok(Done {
        moves: played.schedule.len() as u64,
        sent: played.sent.len() as u64,
    })
}

/// Plays each packet to its end with a master; how many moves that took.
fn play_all<P: Program>(
    alloc: Global,
    program: &P,
    master: &mut Master<P>,
    packets: &[Packet],
) -> Result<u64, NoMemory>
    requires fits { FitsProgram (P.meaning program.now) (P.fits program.now)
        value_of master.old.vars }
    requires threads { length master.old.threads ≡ 1 }
    ensures threads { length master.new.threads ≡ 1 }
{
    let mut moves = 0u64;
    for packet in packets {
        let made = play_one(alloc, master, program, 0, packet)?;
        moves = moves.saturating_add(made);
    }
    Ok(moves)
}

/// The same with a fresh master.
fn play_with_master<P: Program>(
    alloc: Global,
    program: &P,
    packets: &[Packet],
) -> Result<Done, NoMemory> {
    let mut master = Master::fresh(alloc, program, 1)?;
    let moves = play_all(alloc, program, &mut master, packets)?;
    Ok(Done {
        moves,
        sent: master.counts(0).outputs,
    })
}

/// Plays each packet to its end this often, with a player or a master.
fn play_often(alloc: Global, who: &str, packets: &[Packet], rounds: u64) -> anyhow::Result<Done>
    requires { length packets.now ≤ MOST_PACKETS }
{
    let mut moves = 0u64;
    let mut sent = 0u64;
    for _ in 0..rounds {
        let done = match who {
            "master" => play_with_master(alloc, &CountBox::new(), packets)?,
            "player" => play_with_player(alloc, &CountBox::new(), packets).map_err(|error| anyhow!(
                "{error:?}"
            ))?,
            _ => bail!("{who} is neither player nor master"),
        };
        moves = moves.saturating_add(done.moves);
        sent = sent.saturating_add(done.sent);
    }
    Ok(Done { moves, sent })
}

/// Tells how many moves were made, where the words say who makes them, how many packets there are, and how often.
pub fn run<R: AllocGlobal + Print>(rt: &R, words: &mut Args) -> anyhow::Result<()> {
    let who = words.next().context("player or master?")?;
    let count = next_number(words, "how many packets?")?;
    let rounds = next_number(words, "how often?")?;
    let packets = make_packets(rt.alloc(), count)?;
    let done = play_often(rt.alloc(), who.as_str(), packets.as_slice(), rounds)?;
    println!(rt;
        "{who}: {} moves, {} packets sent out",
        done.moves, done.sent
    )?;
    Ok(())
}
