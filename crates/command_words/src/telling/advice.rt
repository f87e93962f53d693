use super::shown::Shown;
use std::io;

/// What is told in a further line. A name is that of a file.
#[derive(Clone, Copy)]
pub enum Advice<'a> {
    /// A text alone.
    Text(&'static str),
    /// A name, and what is told of it.
    Name(Shown<'a>, &'static str),
    /// Two names of one file.
    OneFile(Shown<'a>, Shown<'a>),
    /// How a command is called.
    Usage(&'static str),
    /// A word that is no command.
    NoCommand(Shown<'a>),
    /// The same, and how the command is called that was meant.
    Meant(Shown<'a>, &'static str),
    /// A limit, with what stands in front of the number and after it.
    Most(&'static str, u64, &'static str),
    Line(LineAdvice<'a>),
    File(FileAdvice<'a>),
    Packet(PacketAdvice<'a>),
}

/// What is told of a line of a text file.
#[derive(Clone, Copy)]
pub struct LineAdvice<'a> {
    /// The name of the file.
    pub name: Shown<'a>,
    /// The number of the line, from 1.
    pub number: u64,
    /// Its first bytes.
    pub front: Shown<'a>,
    pub flaw: Flaw<'a>,
}

/// What is wrong with a line.
#[derive(Clone, Copy)]
pub enum Flaw<'a> {
    /// What stands after the line itself.
    Told(&'static str),
    /// A word that is in no line, and the one that was meant.
    Meant(Shown<'a>, &'static str),
    /// A word that is in no line.
    Unknown(Shown<'a>),
    /// The form that it is to have, and a line that has it.
    Form(&'static str, &'static str),
    /// It repeats the line with this number.
    Repeats(u64),
    /// It repeats an earlier line.
    RepeatsEarlier,
}

/// What is told of a whole file.
#[derive(Clone, Copy)]
pub enum FileAdvice<'a> {
    /// Its link type.
    LinkType(Shown<'a>, u32),
    /// It ends after so many bytes.
    Ends(Shown<'a>, usize, &'static str),
    /// It has so many bytes, and may have so many.
    Bytes(Shown<'a>, u64, u64),
    /// It has more packets than this.
    Packets(Shown<'a>, u32),
    /// It has so many events, and may have so many.
    Events(Shown<'a>, u64, u32),
}

/// What is told of a packet of a released capture.
#[derive(Clone, Copy)]
pub struct PacketAdvice<'a> {
    pub name: Shown<'a>,
    /// The number of the packet, from 1.
    pub number: u64,
    pub why: Difference,
}

/// In what a packet differs from an emission, or why it is in none.
#[derive(Clone, Copy)]
pub enum Difference {
    /// It is the emission with this number once more.
    Again(u64),
    /// All emissions, so many, were found before.
    AllFound(usize),
    /// The byte at this place.
    Byte {
        place: usize,
        byte: u8,
        other: u8,
        emission: u64,
        field: &'static str,
    },
    /// How many bytes it has, and how many the emission with this number.
    Count(usize, usize, u64),
    /// How many bytes it had on the wire, and the emission with this number.
    Wire(u32, u32, u64),
    /// Its time, in seconds and nanoseconds.
    Time {
        seconds: u32,
        fraction: u64,
        other_seconds: u32,
        other_fraction: u64,
        emission: u64,
    },
}

/// Tells it on standard error, if it is there.
pub fn tell<R: Eprint>(rt: &R, advice: Option<Advice<'_>>) -> io::Result<()> {
    let Some(advice) = advice else {
        return Ok(());
    };
    match advice {
        Advice::Text(text) => eprintln!(rt; "{text}"),
        Advice::Name(name, text) => eprintln!(rt; "{name}{text}"),
        Advice::OneFile(one, other) => eprintln!(rt; "{one} and {other} are one file"),
        Advice::Usage(usage) => eprintln!(rt; "usage: {usage}"),
        Advice::NoCommand(word) => {
            eprintln!(rt; "no command {word}; ftmb --help tells the commands")
        }
        Advice::Meant(word, usage) => eprintln!(rt; "no command {word}; usage: {usage}"),
        Advice::Most(before, most, after) => eprintln!(rt; "{before} {most} {after}"),
        Advice::Line(line) => tell_line(rt, line),
        Advice::File(file) => tell_file(rt, file),
        Advice::Packet(packet) => tell_packet(rt, packet),
    }
}

fn tell_line<R: Eprint>(rt: &R, advice: LineAdvice<'_>) -> io::Result<()> {
    let LineAdvice {
        name,
        number,
        front,
        flaw,
    } = advice;
    match flaw {
        Flaw::Told(more) => eprintln!(rt; "{name}: line {number} is: {front}{more}"),
        Flaw::Meant(word, near) => eprintln!(rt;
            "{name}: line {number} is: {front}; unknown keyword \"{word}\": is {near} meant?"
        ),
        Flaw::Unknown(word) => {
            eprintln!(rt; "{name}: line {number} is: {front}; unknown keyword \"{word}\"")
        }
        Flaw::Form(form, example) => {
            eprintln!(rt; "{name}: line {number} is: {front}; its form: {form}, as: {example}")
        }
        Flaw::Repeats(before) => {
            eprintln!(rt; "{name}: line {number}: repeats line {before}: {front}")
        }
        Flaw::RepeatsEarlier => {
            eprintln!(rt; "{name}: line {number}: repeats an earlier one: {front}")
        }
    }
}

fn tell_file<R: Eprint>(rt: &R, advice: FileAdvice<'_>) -> io::Result<()> {
    match advice {
        FileAdvice::LinkType(name, number) => {
            eprintln!(rt; "{name}: link type {number}, and only Ethernet (1) can be read")
        }
        FileAdvice::Ends(name, count, why) => {
            eprintln!(rt; "{name}: the file ends after {count} bytes: {why}")
        }
        FileAdvice::Bytes(name, count, most) => {
            eprintln!(rt; "{name}: it has {count} bytes, and a file has {most} at most")
        }
        FileAdvice::Packets(name, most) => eprintln!(rt;
            "{name}: more than {most} packets; to split it: editcap -c {most} {name} part.pcap"
        ),
        FileAdvice::Events(name, count, most) => {
            eprintln!(rt; "{name}: it has {count} events, and {most} is the most")
        }
    }
}

fn tell_packet<R: Eprint>(rt: &R, advice: PacketAdvice<'_>) -> io::Result<()> {
    let PacketAdvice { name, number, why } = advice;
    match why {
        Difference::Again(place) => eprintln!(rt;
            "{name}: packet {number} is emission {place} once more, as an earlier packet is"
        ),
        Difference::AllFound(count) => eprintln!(rt;
            "{name}: packet {number}: the schedule sends out {count} packets, all found before"
        ),
        Difference::Byte {
            place,
            byte,
            other,
            emission,
            field,
        } => eprintln!(rt;
            "{name}: packet {number}: byte {place} is {byte}, {other} in emission {emission} ({field})"
        ),
        Difference::Count(count, other, emission) => eprintln!(rt;
            "{name}: packet {number}: it has {count} bytes, {other} in emission {emission}"
        ),
        Difference::Wire(count, other, emission) => eprintln!(rt;
            "{name}: packet {number}: {count} bytes on the wire, {other} in emission {emission}"
        ),
        Difference::Time {
            seconds,
            fraction,
            other_seconds,
            other_fraction,
            emission,
        } => eprintln!(rt;
            "{name}: packet {number}: its time is {seconds}.{fraction:09}, {other_seconds}.{other_fraction:09} in emission {emission}"
        ),
    }
}

/// Tells what the system says of a file.
pub fn tell_error<R: Eprint>(rt: &R, name: Shown<'_>, error: &io::Error) -> io::Result<()> {
    eprintln!(rt; "{name}: {error}")
}
