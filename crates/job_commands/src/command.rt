ghost use Rattle.std.specs.Prelude.{◌≡◌, MatchOption, None, Some};
ghost use Rattle.job_commands.specs.Words.{asked, asked_of};

use crate::{
    ChainWords, CheckWords, DrillWords, HandWords, LiveWords, MakeWords, PictureWords, PlayWords,
    ResumeWords, RunWords, TraceWords, read_chain_words, read_check_words, read_drill_words,
    read_hand_words, read_live_words, read_make_words, read_picture_words, read_play_words,
    read_resume_words, read_run_words, read_trace_words,
};
use plain_text::Text;

/// A command, with what its words name.
#[derive(Clone, Copy)]
pub enum Command<'a> {
    Run(RunWords<'a>),
    Live(LiveWords<'a>),
    Make(MakeWords<'a>),
    Play(PlayWords<'a>),
    Check(CheckWords<'a>),
    Drill(DrillWords<'a>),
    Trace(TraceWords<'a>),
    Picture(PictureWords<'a>),
    Chain(ChainWords<'a>),
    Hand(HandWords<'a>),
    Resume(ResumeWords<'a>),
}

/// The command that the words ask for. None where they are no command's.
pub fn read_command(words: &[Text]) -> Option<Command<'_>>
    ensures { MatchOption result (asked words.now ≡ None)
        (λ command. asked words.now ≡ Some (asked_of command)) }
{
    if let Some(names) = read_run_words(words) {
        return Some(Command::Run(names));
    }
    if let Some(names) = read_live_words(words) {
        return Some(Command::Live(names));
    }
    if let Some(names) = read_make_words(words) {
        return Some(Command::Make(names));
    }
    if let Some(names) = read_play_words(words) {
        return Some(Command::Play(names));
    }
    if let Some(names) = read_check_words(words) {
        return Some(Command::Check(names));
    }
    if let Some(names) = read_drill_words(words) {
        return Some(Command::Drill(names));
    }
    if let Some(names) = read_trace_words(words) {
        return Some(Command::Trace(names));
    }
    if let Some(names) = read_picture_words(words) {
        return Some(Command::Picture(names));
    }
    if let Some(names) = read_chain_words(words) {
        return Some(Command::Chain(names));
    }
    if let Some(names) = read_hand_words(words) {
        return Some(Command::Hand(names));
    }
    let names = read_resume_words(words)?;
    Some(Command::Resume(names))
}
