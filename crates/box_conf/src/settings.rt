ghost use Rattle.std.specs.Prelude.{◌≡◌, Ok, Err, IfOk, IfErr, IsTrue, Some, map};
ghost use Rattle.plain_text.specs.Grammar.{form_fault};
ghost use Rattle.box_conf.specs.Settings.{setting, with_setting, has_stood, values_set};
ghost use Rattle.box_conf.specs.Settings.{take_value, values_fault, line_read, once, AreRead};
ghost use Rattle.box_conf.specs.Settings.{AreInRange, IsWithin, has_values};
ghost use Rattle.box_conf.specs.Table.{grammar_place};

use crate::table::{BoxLine, LinePlace, Values};
use plain_text::{LineCause, WordIter, end_of_line};

/// What the lines of a box file have set, by their first words; `None` where there was no such line.
#[derive(Clone, Copy, Debug, PartialEq, Eq)]
pub struct Settings {
    pub threads: Option<Values>,
    pub seed: Option<Values>,
    pub shards: Option<Values>,
    pub vlan: Option<Values>,
    pub inside: Option<Values>,
    pub outside: Option<Values>,
    pub ports: Option<Values>,
    pub closing: Option<Values>,
    pub limit: Option<Values>,
    pub icmp: Option<Values>,
    /// The newest of the static ports.
    pub static_port: Option<Values>,
    pub virtual_end: Option<Values>,
    /// The newest of the backends.
    pub backend: Option<Values>,
    pub seal: Option<Values>,
}

impl Settings {
    /// What a line has set.
    pub fn get(self, line: BoxLine) -> Option<Values>
        ensures { result ≡ setting self line }
    {
        match line {
            BoxLine::Threads => self.threads,
            BoxLine::Seed => self.seed,
            BoxLine::Shards => self.shards,
            BoxLine::Vlan => self.vlan,
            BoxLine::Inside => self.inside,
            BoxLine::Outside => self.outside,
            BoxLine::Ports => self.ports,
            BoxLine::Closing => self.closing,
            BoxLine::Limit => self.limit,
            BoxLine::Icmp => self.icmp,
            BoxLine::Static => self.static_port,
            BoxLine::Virtual => self.virtual_end,
            BoxLine::Backend => self.backend,
            BoxLine::Seal => self.seal,
        }
    }

    /// The settings after a line that sets these values.
    pub fn with(self, line: BoxLine, values: Values) -> Settings
        ensures { result ≡ with_setting self line values }
    {
        let set = Some(values);
        match line {
            BoxLine::Threads => Settings {
                threads: set,
                ..self
            },
            BoxLine::Seed => Settings { seed: set, ..self },
            BoxLine::Shards => Settings {
                shards: set,
                ..self
            },
            BoxLine::Vlan => Settings { vlan: set, ..self },
            BoxLine::Inside => Settings {
                inside: set,
                ..self
            },
            BoxLine::Outside => Settings {
                outside: set,
                ..self
            },
            BoxLine::Ports => Settings { ports: set, ..self },
            BoxLine::Closing => Settings {
                closing: set,
                ..self
            },
            BoxLine::Limit => Settings { limit: set, ..self },
            BoxLine::Icmp => Settings { icmp: set, ..self },
            BoxLine::Static => Settings {
                static_port: set,
                ..self
            },
            BoxLine::Virtual => Settings {
                virtual_end: set,
                ..self
            },
            BoxLine::Backend => Settings {
                backend: set,
                ..self
            },
            BoxLine::Seal => Settings { seal: set, ..self },
        }
    }

    /// Whether a line that may stand once stood before.
    pub fn has_stood(self, line: BoxLine) -> bool
        ensures { result ≡ has_stood self line }
    {
        self.get(line).is_some() && !line.stands_again()
    }

    /// The values of a line: what it has set, or the usual ones where it is not there.
    pub fn values(self, line: BoxLine) -> Values
        requires { AreInRange self }
        ensures value { result ≡ values_set self line }
        ensures within { IsTrue (has_values self line) → IsWithin line result }
    {
        match self.get(line) {
            Some(values) => values,
            None => line.usual().unwrap_or(Values::none()),
        }
    }
}

/// The values of a line; `had` says that it may stand once and stood before.
pub fn read_line(words: WordIter<'_>, line: BoxLine, had: bool) -> Result<Values, LineCause>
    ensures value { result ≡ line_read line had words.entry }
    ensures within { IfOk result (IsWithin line) }
{
    read_values(words, line, had)
}

/// The same, by the steps of the reader.
fn read_values(words: WordIter<'_>, line: BoxLine, had: bool) -> Result<Values, LineCause>
    ensures { result ≡ line_read line had words.entry }
{
    let read = read_places(words, line.places())?;
    accepted(line, read, had)
}

/// The values of words, and whether each is in the range of its place.
#[derive(Clone, Copy, Debug, PartialEq, Eq)]
pub struct ReadValues {
    pub values: Values,
    pub within: bool,
}

/// The values of a line's words, of which each has to have the form that its place asks for.
#[tactic(auto, using(crate::proofs::Places::at_each_place))]
fn read_places(mut words: WordIter<'_>, places: &[LinePlace]) -> Result<ReadValues, LineCause>
    ensures values { IfOk result (AreRead places.now words.entry) }
    ensures fault { IfErr result (λ cause.
        form_fault (map grammar_place places.now) words.entry ≡ Some cause) }
{
    match places {
        [] => {
            end_of_line(words)?;
            Ok(ReadValues {
                values: Values::none(),
                within: true,
            })
        }
        [place, rest @ ..] => {
            let value = read_value(&mut words, *place)?;
            let more = read_places(words, rest)?;
            Ok(ReadValues {
                values: more.values.behind(value),
                within: place.has(value) && more.within,
            })
        }
    }
}

/// Takes the next word of a line, which has to have the form that this place asks for, and gives its value.
fn read_value(words: &mut WordIter<'_>, place: LinePlace) -> Result<u64, LineCause>
    ensures value { IfOk result (λ n. take_value place words.old ≡ Ok (n, words.new)) }
    ensures fault { IfErr result (λ cause. take_value place words.old ≡ Err cause) }
{
    let Some(word) = words.next() else {
        return Err(LineCause::MissingWord);
    };
    match place.value(word) {
        Some(value) => Ok(value),
        None => Err(place.misfit()),
    }
}

/// The values, where they are in their ranges and the line stands once.
fn accepted(line: BoxLine, read: ReadValues, had: bool) -> Result<Values, LineCause>
    ensures { result ≡ once (values_fault line read) had read.values }
{
    if !read.within || !line.fits(read.values) {
        return Err(LineCause::OutOfRange);
    }
    if had {
        return Err(LineCause::Twice);
    }
    Ok(read.values)
}
