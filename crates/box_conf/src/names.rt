ghost use Rattle.std.specs.Prelude.{◌≡◌, ◌<◌, ◌≤◌, Some, None, IfOk, IfErr, IfSome, length};
ghost use Rattle.std.specs.List.{list_any};
ghost use Rattle.plain_text.specs.Lines.{counted_lines};
ghost use Rattle.box_conf.specs.Names.{no_names, name_of, name_cause, fault_of_names, named_in};
ghost use Rattle.box_conf.specs.Names.{inside_of, inside_in, is_of_network, is_stray};
ghost use Rattle.box_conf.specs.Names.{has_name, count_of, with_name, is_same, is_in_way};
ghost use Rattle.box_conf.specs.Names.{backend_from, static_from, protocol_of};
ghost use Rattle.box_conf.specs.Settings.{IsWithin};
ghost use Rattle.box_conf.specs.declared.table.BoxLine.TheVariants as line;

use crate::conf::fault_at;
use crate::settings::read_line;
use crate::table::{BoxLine, Values};
use balancer_box::{Backend, no_backends};
use flow_boxes::{MOST, ShortList};
use nat_box::{StaticPort, no_statics};
use plain_text::{LineCause, LineFault, WordIter, lines, words};

/// What the lines name that may stand again, in the order of the lines.
#[derive(Debug, Drop)]
pub struct Named {
    pub backends: ShortList<Backend>,
    pub statics: ShortList<StaticPort>,
}

/// What one such line names.
#[derive(Clone, Copy, Debug, PartialEq, Eq)]
pub enum Name {
    Backend(Backend),
    Static(StaticPort),
}

impl Named {
    /// No names, which take no memory.
    fn none() -> Named
        ensures { result ≡ no_names }
    {
        Named {
            backends: no_backends(),
            statics: no_statics(),
        }
    }

    /// One more name, which goes last.
    fn add(&mut self, name: Name)
        requires { count_of self.old name < 64 }
        ensures { self.new ≡ with_name self.old name }
    {
        match name {
            Name::Backend(backend) => self.backends.push(backend),
            Name::Static(port) => self.statics.push(port),
        }
    }

    /// Why a line may not have this name after these, with the values of the line `inside`: there are 64 of its row, or
    /// it is a static port outside that network, or one is in its way.
    fn refusal(&self, inside: Option<Values>, name: Name) -> Option<LineCause>
        requires { IfSome inside (IsWithin line.Inside) }
        ensures value { result ≡ name_cause inside self.now (Some name) }
        ensures room { result ≡ None → count_of self.now name < 64 }
    {
        if self.count(name) >= MOST || is_stray(inside, name) {
            return Some(LineCause::OutOfRange);
        }
        if self.has(name) {
            Some(LineCause::Twice)
        } else {
            None
        }
    }

    /// How many of the row of this name there are.
    fn count(&self, name: Name) -> usize
        ensures { result ≡ count_of self.now name }
    {
        match name {
            Name::Backend(_) => self.backends.len(),
            Name::Static(_) => self.statics.len(),
        }
    }

    /// Whether one is there that may not stand alongside this.
    fn has(&self, name: Name) -> bool
        ensures { result ≡ has_name self.now name }
    {
        match name {
            Name::Backend(backend) => has_backend(&self.backends, backend),
            Name::Static(port) => has_in_way(&self.statics, port),
        }
    }
}

/// Whether a backend is one of these.
fn has_backend(backends: &ShortList<Backend>, backend: Backend) -> bool
    ensures { result ≡ list_any (λ other. is_same other backend) backends.now }
{
    backends
        .as_slice()
        .iter()
        .any(|other| is_same(*other, backend))
}

/// Whether two backends are the same.
fn is_same(a: Backend, b: Backend) -> bool
    ensures { result ≡ is_same a b }
{
    a.address == b.address && a.port == b.port
}

/// Whether one of these is in the way of a static port.
fn has_in_way(statics: &ShortList<StaticPort>, port: StaticPort) -> bool
    ensures { result ≡ list_any (λ other. is_in_way other port) statics.now }
{
    statics
        .as_slice()
        .iter()
        .any(|other| is_in_way(*other, port))
}

/// Whether two static ports are of one protocol, and have one inside endpoint or one outside port.
fn is_in_way(a: StaticPort, b: StaticPort) -> bool
    ensures { result ≡ is_in_way a b }
{
    a.protocol == b.protocol
        && (a.address == b.address && a.port == b.port || a.outside == b.outside)
}

/// Whether a name is a static port whose address is not of the network of the line `inside`, where there is one.
fn is_stray(inside: Option<Values>, name: Name) -> bool
    requires { IfSome inside (IsWithin line.Inside) }
    ensures { result ≡ is_stray inside name }
{
    match (inside, name) {
        (Some(network), Name::Static(port)) => !is_of_network(network, port.address),
        (Some(_), Name::Backend(_)) | (None, _) => false,
    }
}

/// Whether an address is of the network of a line `inside`: it has the leading bits that all its addresses share.
fn is_of_network(network: Values, address: u32) -> bool
    requires { IsWithin line.Inside network }
    ensures { result ≡ is_of_network network address }
{
    let hidden = 32 - network.second as u32;
    address >> hidden == network.first as u32 >> hidden
}

/// The values of the first line `inside` that has no fault of its own.
fn read_inside(text: &[u8]) -> Option<Values>
    ensures value { result ≡ inside_in (counted_lines text.now) }
    ensures within { IfSome result (IsWithin line.Inside) }
{
    for line in lines(text) {
        if let Some(inside) = inside_of(words(line.bytes)) {
            return Some(inside);
        }
    }
    None
}

/// The values of a line `inside`, if it is one and has no fault of its own.
fn inside_of(mut words: WordIter<'_>) -> Option<Values>
    ensures value { result ≡ inside_of words.entry }
    ensures within { IfSome result (IsWithin line.Inside) }
{
    let word = words.next()?;
    if word == BoxLine::Inside.word() {
        match read_line(words, BoxLine::Inside, false) {
            Ok(values) => Some(values),
            Err(_) => None,
        }
    } else {
        None
    }
}

/// What the lines of a text name, or the first line that names one too many, one again, or a static port outside the
/// inside network.
pub fn read_names(text: &[u8]) -> Result<Named, LineFault>
    ensures names { IfOk result (λ names. names ≡ named_in (counted_lines text.now)) }
    ensures few { IfOk result (λ names. length names.backends ≤ 64) }
    ensures none { IfOk result (λ names. fault_of_names (counted_lines text.now) ≡ None) }
    ensures fault { IfErr result (λ fault.
        fault_of_names (counted_lines text.now) ≡ Some fault) }
{
    let inside = read_inside(text);
    let mut names = Named::none();
    for line in lines(text) {
        if let Some(name) = read_name(words(line.bytes)) {
            match names.refusal(inside, name) {
                None => names.add(name),
                Some(cause) => return Err(fault_at(line.number, cause)),
            }
        }
    }
    Ok(names)
}

/// What a line names, if it is one that does.
fn read_name(mut words: WordIter<'_>) -> Option<Name>
    ensures { result ≡ name_of words.entry }
{
    let word = words.next()?;
    if word == BoxLine::Backend.word() {
        match read_line(words, BoxLine::Backend, false) {
            Ok(values) => Some(Name::Backend(backend_from(values))),
            Err(_) => None,
        }
    } else if word == BoxLine::Static.word() {
        match read_line(words, BoxLine::Static, false) {
            Ok(values) => Some(Name::Static(static_from(values))),
            Err(_) => None,
        }
    } else {
        None
    }
}

/// The backend of these values.
fn backend_from(values: Values) -> Backend
    requires { IsWithin line.Backend values }
    ensures { result ≡ backend_from values }
{
    Backend {
        address: values.first as u32,
        port: values.second as u16,
    }
}

/// The static port of these values.
fn static_from(values: Values) -> StaticPort
    requires { IsWithin line.Static values }
    ensures { result ≡ static_from values }
{
    StaticPort {
        protocol: protocol_of(values.first),
        address: values.second as u32,
        port: values.third as u16,
        outside: values.fourth as u16,
    }
}

/// The number of the protocol that stands at this place: TCP is the first.
fn protocol_of(index: u64) -> u8
    ensures { result ≡ protocol_of index }
{
    if index == 0 { 6 } else { 17 }
}
