ghost use Rattle.std.specs.Prelude.{◌≡◌, ◌<◌, ◌≤◌, ◌+◌, ◌^◌, ◌⊎◌, None, IfSome};
ghost use Rattle.world_io.specs.Stream.{Rose};
ghost use Rattle.job_commands.specs.Answers.{AnswersAs};
ghost use Rattle.job_commands.specs.Status.{IsRefusal};
ghost use Rattle.job_commands.specs.Words.{asked, IfAsks, live_names};
ghost use Rattle.job_top.specs.Commands.{meaning_of};
ghost use Rattle.command_words.specs.Printing.{Prints, asked_text};
ghost use Rattle.world_io.specs.World.{Start, KeepsOrder, WritingFailed};

use command_words::read_text;
use job_commands::Status;
use job_top::serial;
use output_files::{OutputError, report};
use plain_text::Text;
use std::alloc::Global;
use world_io::World;

/// Prints a text where the report goes.
#[tactic(auto, using(crate::proofs::Printed::prints_prefix, crate::proofs::Printed::prints_whole))]
fn print<W: World>(world: &mut W, text: &str) -> Status
    ensures prints { (p : Start) → W.honest p world.new
        → Prints text.now result (W.shows p world.old) (W.shows p world.new) }
    ensures outcome { (result ≡ Status.Done)
        ⊎ ((result ≡ Status.WriteFault) ⊎ (result ≡ Status.NoMemory)) }
    ensures given { (W.ledger world.new).given ≡ (W.ledger world.old).given }
    ensures opens_nothing { (W.ledger world.new).opened_names ≡ (W.ledger world.old).opened_names }
    ensures orderly { (W.ledger world.new).orderly ≡ (W.ledger world.old).orderly }
    ensures write_fault { result ≡ Status.WriteFault
        → WritingFailed W.ledger W.healthy world.old world.new }
    ensures before { (p : Start) → W.honest p world.new → W.honest p world.old }
{
    match report(world, text.as_bytes()) {
        Ok(()) => Status::Done,
        Err(OutputError::WriteFault) => Status::WriteFault,
        Err(OutputError::NoMemory) => Status::NoMemory,
    }
}

/// Does what the words ask for: prints the text that they ask for, as `--help` and `--version` do, and
/// else runs the command that they name, which is not `live`.
pub fn perform<W: World>(alloc: Global, words: &[Text], world: &mut W) -> Status
    requires room { (W.ledger world.old).given < 2 ^ 31 }
    requires no_rounds { live_names words.now ≡ None }
    ensures prints { (p : Start) → W.honest p world.new → IfSome (asked_text words.now)
        (λ text. Prints text result (W.shows p world.old) (W.shows p world.new)) }
    ensures answers { IfAsks words.now (λ command. AnswersAs W.honest W.shows W.ledger W.healthy
        (meaning_of (λ t. ⊥) command) result world.old world.new) }
    ensures printed { IfSome (asked_text words.now) (λ text. (result ≡ Status.Done)
        ⊎ ((result ≡ Status.WriteFault) ⊎ (result ≡ Status.NoMemory))) }
    ensures bad_words { result ≡ Status.BadWords
        → (asked words.now ≡ None) × (asked_text words.now ≡ None) }
    ensures no_command { asked words.now ≡ None → asked_text words.now ≡ None
        → result ≡ Status.BadWords }
    ensures nothing_asked { result ≡ Status.BadWords → world.new ≡ world.old }
    ensures creates_nothing { IsRefusal result
        → (W.ledger world.new).created ≡ (W.ledger world.old).created }
    ensures opens_nothing { asked words.now ≡ None
        → (W.ledger world.new).opened_names ≡ (W.ledger world.old).opened_names }
    ensures orderly { KeepsOrder (W.ledger world.old) (W.ledger world.new) }
    ensures given { (W.ledger world.new).given ≤ (W.ledger world.old).given + 8 }
    ensures read_fault { result ≡ Status.ReadFault
        → Rose (W.ledger world.old).read_faults (W.ledger world.new).read_faults }
    ensures write_fault { result ≡ Status.WriteFault
        → WritingFailed W.ledger W.healthy world.old world.new }
    ensures before { (p : Start) → W.honest p world.new → W.honest p world.old }
{
    let text = match read_text(alloc, words) {
        Ok(text) => text,
        Err(_) => return Status::NoMemory,
    };
    match text {
        Some(text) => print(world, text.as_str()),
        None => serial(alloc, words, world),
    }
}
