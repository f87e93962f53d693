ghost use Rattle.std.specs.Prelude.{◌≡◌, ◌+◌, ◌<◌, ◌^◌, OnSome};
ghost use Rattle.box_program.specs.Hands.{FitsProgram};

use super::files::read_again;
use super::replay::{Fed, box_again, feed_again};
use crate::word_places::read_line;
use box_conf::BoxKind;
use box_program::Program;
use drill_report::put_reason;
use input_logger::InputLog;
use job_commands::{Command, ScheduleFiles, read_command};
use plain_machine::{Local, PlainMove, Schedule};
use plain_player::{Player, read_schedule};
use plain_text::{Bytes, NoMemory, Text, put_u64};
use std::alloc::Global;
use std::rt::Files;
use std::{io, str};

/// How many reasons there are for which a packet is dropped.
const REASONS: usize = 10;

/// How many packets were dropped for each reason; reason 1 comes first.
type Drops = [u64; REASONS];

/// Tells how many packets a run dropped, and for which reasons, if its box names reasons and it dropped some. The schedule
/// that it wrote is played once more, by the files as they are now.
pub fn tell_drops<R: AllocGlobal + Files + Eprint>(rt: &R, words: &[Text]) -> io::Result<()> {
    let Some(line) = drops_of(rt, words) else {
        return Ok(());
    };
    match str::from_utf8(line.as_slice()) {
        Ok(text) => eprintln!(rt; "{text}"),
        Err(_) => Ok(()),
    }
}

fn drops_of<R: AllocGlobal + Files>(rt: &R, words: &[Text]) -> Option<Bytes> {
    let names = performed(words)?;
    let conf = box_again(rt, names.box_file)?;
    let register = conf.kind.drop_register()?;
    let fed = feed_again(rt, names.capture, conf.threads, conf.tags)?;
    let moves = read_again(rt, names.schedule)?;
    let schedule = read_schedule(rt.alloc(), &moves).ok()?;
    let drops = drops_by(rt.alloc(), &conf.kind, register, &fed, &schedule)?;
    line_of(rt.alloc(), drops).ok()?
}

/// The files of a run, with the schedule that it wrote. None where the words ask for no run.
fn performed(words: &[Text]) -> Option<ScheduleFiles<'_>> {
    match read_command(read_line(words))? {
        Command::Run(names) => Some(ScheduleFiles {
            box_file: names.box_file,
            capture: names.capture,
            schedule: names.schedule,
        }),
        Command::Live(names) => Some(ScheduleFiles {
            box_file: names.box_file,
            capture: names.capture,
            schedule: names.schedule,
        }),
        _ => None,
    }
}

/// What a box of this kind drops.
fn drops_by(
    alloc: Global,
    kind: &BoxKind,
    register: usize,
    fed: &Fed,
    schedule: &Schedule,
) -> Option<Drops> {
    match kind {
        BoxKind::Count(_) | BoxKind::Monitor(_) => None,
        BoxKind::Nat(nat) => count_drops(alloc, nat, register, &fed.inputs, schedule),
        BoxKind::Balancer(balancer) => {
            count_drops(alloc, balancer, register, &fed.inputs, schedule)
        }
    }
}

/// How many packets end without an output, by the reason in the register that has it.
fn count_drops<P: Program>(
    alloc: Global,
    program: &P,
    register: usize,
    inputs: &InputLog,
    schedule: &Schedule,
) -> Option<Drops> {
    let mut player = Player::fresh(alloc, program, inputs.threads()).ok()?;
    let mut has_sent = vec![in alloc; false; inputs.threads() as usize].ok()?;
    let mut drops = [0; REASONS];
    for index in 0..schedule.len() {
        let plain = schedule.at(index);
        let ended = make_move(alloc, program, &mut player, inputs, plain, &mut has_sent)?;
        if let Some(place) = ended {
            count(&mut drops, place.regs.get(register));
        }
    }
    Some(drops)
}

/// Makes a move, and gives the place at which a packet ended that was not sent out. `has_sent` says of which threads the
/// packet in hand was sent out.
fn make_move<P: Program>(
    alloc: Global,
    program: &P,
    player: &mut Player<P::Value>,
    inputs: &InputLog,
    plain: PlainMove,
    has_sent: &mut [bool],
) -> Option<Option<Local>>
    requires program { FitsProgram (P.meaning program.now) (P.fits program.now)
        (λ value. value) player.old.values }
    requires room { player.old.made + 1 < 2 ^ 64 }
    ensures fits { FitsProgram (P.meaning program.now) (P.fits program.now)
        (λ value. value) player.new.values }
    ensures made { OnSome result (player.new.made ≡ player.old.made + 1) }
{
    let place = player.place(plain.thread);
    let input = inputs.input(plain.thread, player.next_input(plain.thread));
    if place.is_some() && input.is_none() {
        return None;
    }
    let sent = player.step(alloc, program, plain, input).ok()?;
    let has_sent = has_sent.get_mut(plain.thread as usize)?;
    *has_sent = place.is_some() && (*has_sent || sent.is_some());
    if *has_sent || player.in_hand(plain.thread) {
        return Some(None);
    }
    Some(place)
}

/// Counts one more packet of a reason, if it is one.
fn count(drops: &mut Drops, reason: Option<&u64>) {
    let Some(reason) = reason else {
        return;
    };
    let Some(place) = reason.checked_sub(1) else {
        return;
    };
    if let Some(count) = drops.get_mut(place as usize) {
        *count = count.saturating_add(1);
    }
}

/// The line that tells them, such as `dropped: 5 stray, 2 no free port`; none where nothing was dropped.
fn line_of(alloc: Global, drops: Drops) -> Result<Option<Bytes>, NoMemory> {
    let mut line = Bytes::new(alloc);
    let mut digit = b'0';
    for count in drops {
        digit = digit.saturating_add(1);
        if count > 0 {
            line.extend(if line.is_empty() { b"dropped: " } else { b", " })?;
            put_u64(&mut line, count)?;
            line.push(b' ')?;
            put_reason(&mut line, digit)?;
        }
    }
    Ok(if line.is_empty() { None } else { Some(line) })
}
