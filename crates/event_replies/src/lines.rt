ghost use Rattle.std.specs.Prelude.{◌≡◌, List, IfOk};
ghost use Rattle.script_text.specs.FromRecoveryWorld.{Sent};
ghost use Rattle.script_text.specs.FromRecoveryWorld.{reply_line, sent_names};

use crate::Reply;
use plain_text::{NoMemory, Text};
use script_text::{Event, write_event, write_outcome, write_released};
use std::alloc::Global;

/// Most lines are no longer than this.
const ROOM: usize = 64;

/// The line of the report for an event: its words, its outcome, and each output that it released as THREAD:NUMBER, with
/// a line feed behind them.
pub fn put_line(alloc: Global, event: &Event, reply: &Reply) -> Result<Text, NoMemory>
    ensures { IfOk result (λ text. (freed : List Sent) → reply.now.released ≡ sent_names freed
        → text ≡ reply_line event.now reply.now.outcome freed) }
{
    let mut text = String::with_capacity(alloc, ROOM)?;
    write_event(&mut text, *event)?;
    text.push(' ')?;
    write_outcome(&mut text, &reply.outcome)?;
    write_released(&mut text, reply.released.as_slice())?;
    text.push('\n')?;
    Ok(Text::from_string(text))
}
