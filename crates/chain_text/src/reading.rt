ghost use Rattle.std.specs.Prelude.{◌≡◌, ◌≤◌, All, Some, IfOk, IfErr};
ghost use Rattle.plain_text.specs.declared.limit.TheConstants.{MOST_EVENTS as most_events};
ghost use Rattle.plain_text.specs.Lines.{words_of};
ghost use Rattle.chain_world.specs.Chain.{NamesSystem};
ghost use Rattle.chain_text.specs.ChainScripts.{IsChainScript, IsRefused, SaysEvent, count_of};
ghost use Rattle.chain_text.specs.ChainScripts.{event_fault};
ghost use Rattle.chain_text.specs.ChainScripts.{system_of};

use crate::rest::behind_word;
use chain_world::ChainEvent;
use line_tables::read_thing;
use plain_text::{LineCause, LineFile, MOST_EVENTS, ReadError, Sequence, read_lines, words};
use script_text::Scripts;
use std::alloc::Global;

/// The events of a chain, in order.
pub type ChainEvents = Sequence<ChainEvent>;

/// Reads a script of a chain: on each line that counts `1` or `2`, and then an event as in a script. Its time and
/// memory grow with the length of the text, and no faster.
///
/// It answers `TooMany` where the events of the lines before the first faulty one, or of all lines, pass `MOST_EVENTS`;
/// there `auto S N` counts as N events, and any other as one. Else it answers `Fault` with the first faulty line, if
/// there is one: another first word is an unknown one, and a line of one word lacks one.
pub fn read_chain(alloc: Global, text: &[u8]) -> Result<ChainEvents, ReadError>
    ensures script { IfOk result (λ events. IsChainScript text.now events) }
    ensures of_systems { IfOk result (All NamesSystem) }
    ensures few { IfOk result (λ events. count_of events ≤ most_events) }
    ensures refused { IfErr result (IsRefused text.now) }
{
    read_lines::<ChainScripts>(alloc, text, u64::from(MOST_EVENTS))
}

/// Scripts of a chain as files of lines.
pub struct ChainScripts;

impl LineFile for ChainScripts {
    ghost use Rattle.chain_text.specs.ChainScripts.{chain_form};

    type Thing = ChainEvent;

    ghost form = { chain_form };

    fn read_line(line: &[u8]) -> Result<ChainEvent, LineCause> {
        read_event(line)
    }

    fn weight(thing: &ChainEvent) -> u64 {
        Scripts::weight(&thing.event)
    }
}

/// The event that a line says, or its fault.
fn read_event(line: &[u8]) -> Result<ChainEvent, LineCause>
    ensures says { IfOk result (SaysEvent (words_of line.now)) }
    ensures fault { IfErr result (λ cause. event_fault (words_of line.now) ≡ Some cause) }
{
    let mut left = words(line);
    let Some(word) = left.next() else {
        return Err(LineCause::UnknownWord);
    };
    let Some(which) = system_named(word) else {
        return Err(LineCause::UnknownWord);
    };
    if left.next().is_none() {
        return Err(LineCause::MissingWord);
    }
    let event = read_thing::<Scripts>(behind_word(line))?;
    Ok(ChainEvent { which, event })
}

/// The system that a word names.
fn system_named(word: &[u8]) -> Option<u32>
    ensures { result ≡ system_of word.now }
{
    if word == b"1".as_slice() {
        Some(1)
    } else if word == b"2".as_slice() {
        Some(2)
    } else {
        None
    }
}
