use super::advice::Advice;
use super::forms::Grammar;
use super::lines;
use super::shown::Shown;
use super::word_parts::{first_word, word_at};
use balancer_box::BalancerSettings;
use box_conf::{BoxKind, read_box};
use nat_box::NatSettings;
use plain_text::{LineCause, LineFault};

/// The lines that a box file needs, by the word of its kind, and what is told where they are not there.
const NEEDED: [(&str, &str, &str); 4] = [
    ("nat", "inside", ": it needs a line: inside ADDRESS LENGTH"),
    ("nat", "outside", ": it needs a line: outside ADDRESS"),
    (
        "balancer",
        "virtual",
        ": it needs a line: virtual ADDRESS PORT",
    ),
    (
        "balancer",
        "backend",
        ": it needs a line: backend ADDRESS PORT",
    ),
];

/// What stands in a box file where it leaves its grammar, or which line it needs and has not.
pub fn advise<'a>(name: Shown<'a>, text: &'a [u8], fault: LineFault) -> Option<Advice<'a>> {
    match fault.cause {
        LineCause::MissingLine => Some(Advice::Name(name, missing_line(text)?)),
        _ => lines::advise(name, text, fault, Grammar::BoxFile),
    }
}

/// Which line is needed.
fn missing_line(text: &[u8]) -> Option<&'static str> {
    let Some(first) = plain_text::lines(text).next() else {
        return Some(": it needs a line: box KIND");
    };
    let kind = word_at(first.bytes, 1)?;
    for (of_kind, word, missing) in NEEDED {
        if of_kind.as_bytes() == kind && !has_line(text, word) {
            return Some(missing);
        }
    }
    None
}

/// Whether a line of the text begins with this word.
fn has_line(text: &[u8], word: &str) -> bool {
    for line in plain_text::lines(text) {
        if first_word(line.bytes) == word.as_bytes() {
            return true;
        }
    }
    false
}

/// Why a box file that is right by its grammar makes no sense.
pub fn doubt_in(text: &[u8]) -> Option<&'static str> {
    match read_box(text) {
        Ok(conf) => doubt_of(&conf.kind),
        Err(_) => None,
    }
}

fn doubt_of(kind: &BoxKind) -> Option<&'static str> {
    match kind {
        BoxKind::Count(_) | BoxKind::Monitor(_) => None,
        BoxKind::Nat(nat) => doubt_of_nat(&nat.program.settings),
        BoxKind::Balancer(balancer) => doubt_of_balancer(&balancer.program.settings),
    }
}

/// A packet to the outside address would come from inside and go inside.
fn doubt_of_nat(nat: &NatSettings) -> Option<&'static str> {
    let apart = nat.inside ^ nat.outside;
    if nat.length <= 32 && u64::from(apart) >> (32 - nat.length) == 0 {
        Some(": warning: the outside address is in the inside network")
    } else {
        None
    }
}

/// Clients would be sent to where they came, or to where nobody can listen.
fn doubt_of_balancer(balancer: &BalancerSettings) -> Option<&'static str> {
    let mut has_port_0 = balancer.port == 0;
    for backend in balancer.backends.as_slice() {
        if backend.address == balancer.address && backend.port == balancer.port {
            return Some(": warning: the virtual endpoint is one of the backends");
        }
        has_port_0 = has_port_0 || backend.port == 0;
    }
    if has_port_0 {
        Some(": warning: nobody can listen on port 0")
    } else {
        None
    }
}
