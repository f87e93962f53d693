ghost use Rattle.std.specs.Prelude.{◌≡◌};
ghost use Rattle.std.specs.Option.{option_copied};
ghost use Rattle.job_commands.specs.Words.{asked, asked_of};
ghost use Rattle.packet_taps.specs.Words.{watch_names};
ghost use Rattle.command_words.specs.Faults.{box_file_of, capture_of, faulty_file, name_of_faulty};
ghost use Rattle.command_words.specs.Faults.{handover_of, plan_of, released_of, schedule_of};
ghost use Rattle.command_words.specs.Faults.{script_of, second_box_of};

use job_commands::{Command, InputFault, read_command};
use packet_taps::read_watch_words;
use plain_text::Text;

/// The name of the input in which a fault stands, by the words of the command, without those of taps. None where the
/// words name no such input.
pub fn faulty_name(line: &[Text], fault: InputFault) -> Option<&Text>
    ensures { option_copied result ≡ name_of_faulty (asked line.now) (watch_names line.now) fault }
{
    match read_command(line) {
        Some(command) => faulty_input(command, fault),
        None => match read_watch_words(line) {
            Some(names) => Some(names.capture),
            None => None,
        },
    }
}

fn faulty_input(command: Command<'_>, fault: InputFault) -> Option<&Text>
    ensures { option_copied result ≡ faulty_file (asked_of command.entry) fault }
{
    match fault {
        InputFault::BoxFile(_) => box_file(command),
        InputFault::SecondBox(_) => second_box(command),
        InputFault::Capture(_) => capture(command),
        InputFault::NgCapture(_) => capture(command),
        InputFault::Script(_) => script(command),
        InputFault::Plan(_) => plan(command),
        InputFault::Schedule(_) => schedule(command),
        InputFault::Moves(_) => schedule(command),
        InputFault::Released(_) => released(command),
        InputFault::NgReleased(_) => released(command),
        InputFault::Handover(_) => handover(command),
    }
}

/// The box file; of a chain that of the first box.
pub fn box_file(command: Command<'_>) -> Option<&Text>
    ensures { option_copied result ≡ box_file_of (asked_of command.entry) }
{
    match command {
        Command::Run(names) => Some(names.box_file),
        Command::Live(names) => Some(names.box_file),
        Command::Make(_) => None,
        Command::Play(names) => Some(names.files.box_file),
        Command::Check(names) => Some(names.files.box_file),
        Command::Drill(names) => Some(names.box_file),
        Command::Trace(names) => Some(names.box_file),
        Command::Picture(names) => Some(names.box_file),
        Command::Chain(names) => Some(names.first_box),
        Command::Hand(names) => Some(names.box_file),
        Command::Resume(names) => Some(names.box_file),
    }
}

pub fn second_box(command: Command<'_>) -> Option<&Text>
    ensures { option_copied result ≡ second_box_of (asked_of command.entry) }
{
    match command {
        Command::Chain(names) => Some(names.second_box),
        _ => None,
    }
}

pub fn capture(command: Command<'_>) -> Option<&Text>
    ensures { option_copied result ≡ capture_of (asked_of command.entry) }
{
    match command {
        Command::Run(names) => Some(names.capture),
        Command::Live(names) => Some(names.capture),
        Command::Make(_) => None,
        Command::Play(names) => Some(names.files.capture),
        Command::Check(names) => Some(names.files.capture),
        Command::Drill(names) => Some(names.capture),
        Command::Trace(names) => Some(names.capture),
        Command::Picture(names) => Some(names.capture),
        Command::Chain(names) => Some(names.capture),
        Command::Hand(names) => Some(names.capture),
        Command::Resume(names) => Some(names.capture),
    }
}

pub fn script(command: Command<'_>) -> Option<&Text>
    ensures { option_copied result ≡ script_of (asked_of command.entry) }
{
    match command {
        Command::Run(names) => Some(names.script),
        Command::Trace(names) => Some(names.script),
        Command::Picture(names) => Some(names.script),
        Command::Chain(names) => Some(names.script),
        Command::Hand(names) => Some(names.script),
        Command::Resume(names) => Some(names.script),
        _ => None,
    }
}

pub fn plan(command: Command<'_>) -> Option<&Text>
    ensures { option_copied result ≡ plan_of (asked_of command.entry) }
{
    match command {
        Command::Live(names) => Some(names.plan),
        _ => None,
    }
}

pub fn schedule(command: Command<'_>) -> Option<&Text>
    ensures { option_copied result ≡ schedule_of (asked_of command.entry) }
{
    match command {
        Command::Play(names) => Some(names.files.schedule),
        Command::Check(names) => Some(names.files.schedule),
        _ => None,
    }
}

fn released(command: Command<'_>) -> Option<&Text>
    ensures { option_copied result ≡ released_of (asked_of command.entry) }
{
    match command {
        Command::Check(names) => Some(names.released),
        _ => None,
    }
}

pub fn handover(command: Command<'_>) -> Option<&Text>
    ensures { option_copied result ≡ handover_of (asked_of command.entry) }
{
    match command {
        Command::Resume(names) => Some(names.handover),
        _ => None,
    }
}
