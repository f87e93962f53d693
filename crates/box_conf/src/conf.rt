ghost use Rattle.std.specs.Prelude.{◌≡◌, ◌≤◌, Ok, Err, None, IfOk, IfErr, IfSome, length};
ghost use Rattle.plain_text.specs.Lines.{counted_lines};
ghost use Rattle.sha2.specs.Sha256.{sha256};
ghost use Rattle.box_conf.specs.Kinds.{conf_from, missing_line, IsBalancer};
ghost use Rattle.box_conf.specs.BoxFile.{IsBoxFile, FirstFault};
ghost use Rattle.box_conf.specs.Names.{named_in};
ghost use Rattle.box_conf.specs.Reading.{box_of, described_box, earlier, box_line, first_line};
ghost use Rattle.box_conf.specs.Reading.{set_line};
ghost use Rattle.box_conf.specs.Settings.{AreInRange, values_set};

use crate::kind::{BoxConf, KindWord, has_tags, seal_from};
use crate::names::{Named, read_names};
use crate::settings::{Settings, read_line};
use crate::table::BoxLine;
use plain_text::{LineCause, LineFault, WordIter, count_lines, end_of_line, lines, words};

/// The word of the line that names the kind.
const BOX: &[u8] = b"box";

/// Reads a box file, or names its first fault. It takes no memory.
///
/// Its first line that counts is `box KIND`, where the kind is `count`, `monitor`, `nat` or `balancer`; the others come
/// in any order, each at most once, but for `static` and `backend`.
///
/// | Line | Kinds | Range | Where it is not there |
/// |---|---|---|---|
/// | `threads N` | all | 1 to 16 | 1 |
/// | `seed S` | all | any number | 0 |
/// | `shards S` | `monitor`, `nat`, `balancer` | 1 to 64 | 16 |
/// | `vlan` | all | | tags are not looked through |
/// | `seal` | all | | the text of a handover is not sealed |
/// | `inside ADDRESS LENGTH` | `nat` | a length of 1 to 32 bits | a fault |
/// | `outside ADDRESS` | `nat` | any address | a fault |
/// | `ports LOW HIGH` | `nat` | 1 to 65,535, LOW at most HIGH | 1024 65535 |
/// | `closing SECONDS` | `nat`, `balancer` | 1 to 4,294,967,295 | connections are not followed |
/// | `limit N` | `nat` | 1 to 65,535 | a host has as many mappings as there are ports |
/// | `icmp errors` | `nat` | | errors of ICMP are dropped |
/// | `static PROTOCOL ADDRESS PORT OUTSIDE_PORT` | `nat` | `tcp` or `udp`, ports of 1 to 65,535 | there is none |
/// | `virtual ADDRESS PORT` | `balancer` | a port of 0 to 65,535 | a fault |
/// | `backend ADDRESS PORT` | `balancer` | a port of 0 to 65,535 | a fault |
///
/// Of `static` and of `backend` there are at most 64 lines. No backend stands twice, and no two static ports of one
/// protocol have the same inside endpoint or the same outside port. The address of a static port is of the inside
/// network, else its line is out of range, wherever the line `inside` stands.
pub fn read_box(text: &[u8]) -> Result<BoxConf, LineFault>
    ensures value { IfOk result (IsBoxFile text.now) }
    ensures threads { IfOk result (λ conf. (1 ≤ conf.threads) × (conf.threads ≤ 16)) }
    ensures seal { IfOk result (λ conf. IfSome conf.seal (λ seal. seal ≡ sha256 text.now)) }
    ensures fault { IfErr result (λ fault. FirstFault text.now fault.line fault.cause) }
{
    read_both(text)
}

/// The same, by the steps of the reader: what the lines set, and what they name; of two faults the earlier one.
fn read_both(text: &[u8]) -> Result<BoxConf, LineFault>
    ensures value { result ≡ box_of text.now }
    ensures threads { IfOk result (λ conf. (1 ≤ conf.threads) × (conf.threads ≤ 16)) }
{
    let names = read_names(text);
    match read_settings(text) {
        Ok(set) => match names {
            Ok(names) => Ok(make_conf(text, set.kind, set.settings, names)),
            Err(fault) => Err(fault),
        },
        Err(of_table) => match names {
            Ok(_) => Err(of_table),
            Err(of_names) => Err(earlier(of_table, of_names)),
        },
    }
}

/// The fault of the earlier line.
fn earlier(of_table: LineFault, of_names: LineFault) -> LineFault
    ensures { result ≡ earlier of_table of_names }
{
    if of_names.line < of_table.line {
        of_names
    } else {
        of_table
    }
}

/// What a box file sets.
#[derive(Clone, Copy, Debug)]
struct SetLines {
    kind: KindWord,
    settings: Settings,
}

/// What the lines of a box file set, by the table of its kind.
fn read_settings(text: &[u8]) -> Result<SetLines, LineFault>
    ensures value { IfOk result (λ set. described_box text.now
        ≡ Ok (conf_from (sha256 text.now) set.kind (values_set set.settings)
        (named_in (counted_lines text.now)))) }
    ensures in_range { IfOk result (λ set. AreInRange set.settings) }
    ensures whole { IfOk result (λ set. missing_line set.kind set.settings ≡ None) }
    ensures fault { IfErr result (λ fault. described_box text.now ≡ Err fault) }
{
    let mut left = lines(text);
    let Some(first) = left.next() else {
        return Err(fault_at(count_lines(text) + 1, LineCause::MissingLine));
    };
    let kind = match read_first_line(words(first.bytes)) {
        Ok(kind) => kind,
        Err(cause) => return Err(fault_at(first.number, cause)),
    };
    let mut settings = Settings {
        threads: None,
        seed: None,
        shards: None,
        vlan: None,
        inside: None,
        outside: None,
        ports: None,
        closing: None,
        limit: None,
        icmp: None,
        static_port: None,
        virtual_end: None,
        backend: None,
        seal: None,
    };
    for line in left {
        match set_by_line(kind, settings, words(line.bytes)) {
            Ok(next) => settings = next,
            Err(cause) => return Err(fault_at(line.number, cause)),
        }
    }
    match kind.missing_line(settings) {
        None => Ok(SetLines { kind, settings }),
        Some(_) => Err(fault_at(count_lines(text) + 1, LineCause::MissingLine)),
    }
}

/// The box of these settings and names, in the file of this text.
fn make_conf(text: &[u8], kind: KindWord, settings: Settings, names: Named) -> BoxConf
    requires in_range { AreInRange settings }
    requires whole { missing_line kind settings ≡ None }
    requires some { IsBalancer kind → 1 ≤ length names.backends }
    requires few { length names.backends ≤ 64 }
    ensures value { result ≡ conf_from (sha256 text.now) kind (values_set settings) names }
    ensures threads { (1 ≤ result.threads) × (result.threads ≤ 16) }
{
    BoxConf {
        threads: settings.values(BoxLine::Threads).first as u32,
        seed: settings.values(BoxLine::Seed).first,
        tags: has_tags(settings),
        seal: seal_from(text, settings),
        kind: kind.make(settings, names),
    }
}

pub(crate) fn fault_at(line: u64, cause: LineCause) -> LineFault
    ensures { result ≡ record { line = line; cause = cause } }
{
    LineFault { line, cause }
}

/// The kind that the first line names.
fn read_first_line(mut words: WordIter<'_>) -> Result<KindWord, LineCause>
    ensures { result ≡ first_line words.entry }
{
    let Some(word) = words.next() else {
        return Err(LineCause::UnknownWord);
    };
    if word == BOX {
        read_kind(words)
    } else {
        Err(LineCause::UnknownWord)
    }
}

/// The kind that a line names after the word `box`.
fn read_kind(mut words: WordIter<'_>) -> Result<KindWord, LineCause>
    ensures { result ≡ box_line words.entry }
{
    let Some(word) = words.next() else {
        return Err(LineCause::MissingWord);
    };
    let Some(kind) = KindWord::named(word) else {
        return Err(LineCause::UnknownWord);
    };
    match end_of_line(words) {
        Ok(()) => Ok(kind),
        Err(cause) => Err(cause),
    }
}

/// The settings after a line that follows the first, in the file of a box of this kind.
fn set_by_line(
    kind: KindWord,
    settings: Settings,
    mut words: WordIter<'_>,
) -> Result<Settings, LineCause>
    requires { AreInRange settings }
    ensures value { result ≡ set_line kind settings words.entry }
    ensures in_range { IfOk result AreInRange }
{
    let Some(word) = words.next() else {
        return Err(LineCause::UnknownWord);
    };
    if word == BOX {
        return match read_kind(words) {
            Ok(_) => Err(LineCause::Twice),
            Err(cause) => Err(cause),
        };
    }
    let Some(line) = kind.line_named(word) else {
        return Err(LineCause::UnknownWord);
    };
    let values = read_line(words, line, settings.has_stood(line))?;
    Ok(settings.with(line, values))
}
