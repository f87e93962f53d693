ghost use Rattle.std.specs.Prelude.{◌≡◌, ◌≤◌, ◌++◌, IfOk, OnOk, length};
ghost use Rattle.output_releases.specs.Released.{NotesReleased, ForgetsReleased, AreForgotten};
ghost use Rattle.output_releases.specs.Released.{names_of};

use access_log::Output;
use box_program::Program;
use dup_filter::Released;
use link_store::SentFrames;
use plain_text::NoMemory;
use system_parts::{Core, Releases};

/// Appends the thread and number of each of these outputs.
fn add_names(outputs: &[Output], names: &mut Releases) -> Result<(), NoMemory>
    ensures { OnOk result (names.new ≡ names.old ++ names_of outputs.now) }
{
    for output in outputs {
        names.push((output.thread, output.number))?;
    }
    Ok(())
}

/// Takes note of outputs that were released, and lists them.
pub fn note_released<P: Program>(
    core: &mut Core<P>,
    outputs: &[Output],
) -> Result<Releases, NoMemory>
    ensures { IfOk result (λ list. NotesReleased outputs.now list core.old core.new) }
{
    let mut list = Releases::new(core.alloc);
    add_names(outputs, &mut list)?;
    add_names(outputs, &mut core.released)?;
    Ok(list)
}

/// Forgets the frames of each thread's outputs up to the number up to which all are released.
pub fn forget_released(sent: &mut SentFrames, released: &Released, threads: u32)
    ensures only { ForgetsReleased sent.old sent.new released.now }
    ensures all { AreForgotten sent.new released.now threads }
{
    for thread in 0..threads {
        sent.forget_outputs(thread, released.floor(thread));
    }
}

/// Does so where there are outputs that are released now.
pub fn forget_some(sent: &mut SentFrames, released: &Released, threads: u32, outputs: &[Output])
    ensures only { ForgetsReleased sent.old sent.new released.now }
    ensures all { 1 ≤ length outputs.now → AreForgotten sent.new released.now threads }
{
    if !outputs.is_empty() {
        forget_released(sent, released, threads);
    }
}
