ghost use Rattle.std.specs.Prelude.{◌≤◌, IfSome};

use super::captures::capture_again;
use super::files::read_again;
use box_conf::{BoxConf, read_box};
use input_logger::InputLog;
use plain_text::{Text, Unit};
use schedule_check::feed_all;
use std::rt::Files;

/// The box of a box file that is read again, if it is accepted.
pub fn box_again<R: AllocGlobal + Files>(rt: &R, name: &Text) -> Option<BoxConf>
    ensures some { IfSome result (λ conf. 1 ≤ conf.threads) }
    ensures few { IfSome result (λ conf. conf.threads ≤ 16) }
{
    let text = read_again(rt, name)?;
    read_box(&text).ok()
}

/// The packets of a capture as a box takes them.
#[derive(Drop)]
pub struct Fed {
    /// What the fractions of their times count.
    pub unit: Unit,
    pub inputs: InputLog,
}

/// The packets of a capture that is read again, by thread.
pub fn feed_again<R: AllocGlobal + Files>(
    rt: &R,
    name: &Text,
    threads: u32,
    tags: bool,
) -> Option<Fed>
    requires some { 1 ≤ threads }
    requires few { threads ≤ 16 }
{
    let capture = capture_again(rt, name)?;
    let unit = capture.unit;
    let inputs = feed_all(rt.alloc(), threads, tags, capture.packets).ok()?;
    Some(Fed { unit, inputs })
}
