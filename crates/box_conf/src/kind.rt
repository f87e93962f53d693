ghost use Rattle.std.specs.Prelude.{◌≡◌, ◌≤◌, ◌<◌, ◌^◌, true, None, is_some, length};
ghost use Rattle.sha2.specs.Sha256.{sha256};
ghost use Rattle.box_conf.specs.Kinds.{kind_named, lines_of, line_named, missing_line, box_from};
ghost use Rattle.box_conf.specs.Kinds.{number_of, nat_from, balancer_from, has_tags, IsBalancer};
ghost use Rattle.box_conf.specs.Kinds.{drop_register, seal_from};
ghost use Rattle.box_conf.specs.Settings.{AreInRange, setting, values_set};
ghost use Rattle.box_conf.specs.declared.table.BoxLine.TheVariants.{Inside, Outside, Virtual};

use crate::names::Named;
use crate::settings::Settings;
use crate::table::BoxLine;
use balancer_box::{Backend, BalancerBox, BalancerSettings};
use box_program::CountBox;
use flow_boxes::ShortList;
use monitor_box::MonitorBox;
use nat_box::{NatBox, NatSettings, StaticPort};
use sha2::{Digest, Sha256};
use tagged_box::Tagged;

/// The box that runs, with its settings.
#[derive(Debug, Drop)]
pub enum BoxKind {
    Count(Tagged<CountBox>),
    Monitor(Tagged<MonitorBox>),
    Nat(Tagged<NatBox>),
    Balancer(Tagged<BalancerBox>),
}

impl BoxKind {
    /// The register in which the box has the reason for which it drops a packet, when it ends it. None where it drops
    /// none.
    pub fn drop_register(&self) -> Option<usize>
        ensures { result ≡ drop_register self.now }
    {
        match self {
            BoxKind::Count(_) | BoxKind::Monitor(_) => None,
            BoxKind::Nat(_) => Some(nat_box::REASON_REGISTER),
            BoxKind::Balancer(_) => Some(balancer_box::REASON_REGISTER),
        }
    }
}

/// What a box file says.
#[derive(Debug, Drop)]
pub struct BoxConf {
    /// The threads of the box, 1 to 16.
    pub threads: u32,
    /// The seed of its random words.
    pub seed: u64,
    /// Whether one VLAN tag is looked through (IEEE 802.1Q).
    pub tags: bool,
    /// Where a system of it is handed over sealed: the SHA-256 of the bytes of its file.
    pub seal: Option<[u8; 32]>,
    /// Which box it is.
    pub kind: BoxKind,
}

/// A kind of box, by the word that names it in a box file.
#[derive(Clone, Copy, Debug, PartialEq, Eq)]
pub enum KindWord {
    Count,
    Monitor,
    Nat,
    Balancer,
}

impl KindWord {
    /// The kind that a word names, if it names one.
    pub fn named(word: &[u8]) -> Option<KindWord>
        ensures { result ≡ kind_named word.now }
    {
        if word == b"count".as_slice() {
            Some(KindWord::Count)
        } else if word == b"monitor".as_slice() {
            Some(KindWord::Monitor)
        } else if word == b"nat".as_slice() {
            Some(KindWord::Nat)
        } else if word == b"balancer".as_slice() {
            Some(KindWord::Balancer)
        } else {
            None
        }
    }

    /// The lines that may follow the first in a file of this kind.
    fn lines(self) -> &'static [BoxLine]
        ensures { result.now ≡ lines_of self }
    {
        match self {
            KindWord::Count => &[
                BoxLine::Threads,
                BoxLine::Seed,
                BoxLine::Vlan,
                BoxLine::Seal,
            ],
            KindWord::Monitor => &[
                BoxLine::Threads,
                BoxLine::Seed,
                BoxLine::Shards,
                BoxLine::Vlan,
                BoxLine::Seal,
            ],
            KindWord::Nat => &[
                BoxLine::Threads,
                BoxLine::Seed,
                BoxLine::Shards,
                BoxLine::Vlan,
                BoxLine::Inside,
                BoxLine::Outside,
                BoxLine::Ports,
                BoxLine::Closing,
                BoxLine::Limit,
                BoxLine::Icmp,
                BoxLine::Static,
                BoxLine::Seal,
            ],
            KindWord::Balancer => &[
                BoxLine::Threads,
                BoxLine::Seed,
                BoxLine::Shards,
                BoxLine::Vlan,
                BoxLine::Virtual,
                BoxLine::Backend,
                BoxLine::Closing,
                BoxLine::Seal,
            ],
        }
    }

    /// The box of this kind, where its lines have set these values and named these, and none is missing.
    pub fn make(self, settings: Settings, names: Named) -> BoxKind
        requires in_range { AreInRange settings }
        requires whole { missing_line self settings ≡ None }
        requires some { IsBalancer self → 1 ≤ length names.backends }
        requires few { length names.backends ≤ 64 }
        ensures { result ≡ box_from self (values_set settings) names }
    {
        let tags = has_tags(settings);
        match self {
            KindWord::Count => BoxKind::Count(Tagged {
                program: CountBox::new(),
                tags,
            }),
            KindWord::Monitor => {
                let shards = settings.values(BoxLine::Shards).first;
                BoxKind::Monitor(Tagged {
                    program: MonitorBox::new(shards as u32),
                    tags,
                })
            }
            KindWord::Nat => BoxKind::Nat(Tagged {
                program: make_nat(settings, names.statics),
                tags,
            }),
            KindWord::Balancer => BoxKind::Balancer(Tagged {
                program: make_balancer(settings, names.backends),
                tags,
            }),
        }
    }

    /// A line that has to stand in a file of this kind, and has not set anything.
    pub fn missing_line(self, settings: Settings) -> Option<BoxLine>
        ensures { result ≡ missing_line self settings }
    {
        self.lines().iter().copied().find(|line| line.usual().is_none()
            && settings.get(*line).is_none())
    }

    /// The line of this kind that a word begins, if it begins one that sets values.
    pub fn line_named(self, word: &[u8]) -> Option<BoxLine>
        ensures { result ≡ line_named self word.now }
    {
        self.lines()
            .iter()
            .copied()
            .find(|line| word == line.word())
    }
}

/// Whether one VLAN tag is looked through (IEEE 802.1Q): the line `vlan` stands.
pub fn has_tags(settings: Settings) -> bool
    requires { AreInRange settings }
    ensures { result ≡ has_tags (values_set settings) }
{
    settings.values(BoxLine::Vlan).first == 0
}

/// Where the line `seal` stands: the SHA-256 of the bytes of the file.
pub fn seal_from(text: &[u8], settings: Settings) -> Option<[u8; 32]>
    requires { AreInRange settings }
    ensures { result ≡ seal_from (sha256 text.now) (values_set settings) }
{
    if settings.values(BoxLine::Seal).first == 0 {
        Some(Sha256::digest(text))
    } else {
        None
    }
}

/// The number of a line such as `closing`; none where it is not there.
fn number_of(number: u64) -> Option<u32>
    requires { number < 2 ^ 32 }
    ensures { result ≡ number_of number }
{
    if number == 0 {
        None
    } else {
        Some(number as u32)
    }
}

/// The NAT of these settings and static ports.
fn make_nat(settings: Settings, statics: ShortList<StaticPort>) -> NatBox
    requires in_range { AreInRange settings }
    requires inside { is_some (setting settings Inside) ≡ true }
    requires outside { is_some (setting settings Outside) ≡ true }
    ensures { result ≡ nat_from (values_set settings) statics }
{
    let inside = settings.values(BoxLine::Inside);
    let ports = settings.values(BoxLine::Ports);
    NatBox::new(NatSettings {
        shards: settings.values(BoxLine::Shards).first as u32,
        inside: inside.first as u32,
        length: inside.second as u32,
        outside: settings.values(BoxLine::Outside).first as u32,
        low: ports.first as u16,
        high: ports.second as u16,
        closing: number_of(settings.values(BoxLine::Closing).first),
        statics,
        errors: settings.values(BoxLine::Icmp).first == 0,
        limit: number_of(settings.values(BoxLine::Limit).first),
    })
}

/// The balancer of these settings and backends.
fn make_balancer(settings: Settings, backends: ShortList<Backend>) -> BalancerBox
    requires in_range { AreInRange settings }
    requires end { is_some (setting settings Virtual) ≡ true }
    requires some { 1 ≤ length backends }
    requires few { length backends ≤ 64 }
    ensures { result ≡ balancer_from (values_set settings) backends }
{
    let end = settings.values(BoxLine::Virtual);
    let closing = settings.values(BoxLine::Closing).first;
    BalancerBox::new(BalancerSettings {
        shards: settings.values(BoxLine::Shards).first as u32,
        address: end.first as u32,
        port: end.second as u16,
        backends,
        closing: number_of(closing),
    })
}
