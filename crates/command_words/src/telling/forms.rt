use super::nearest::{is_meant, nearest};
use super::word_parts::{first_word, word_at};
use plain_text::words;

/// What a text file is to be.
#[derive(Clone, Copy)]
pub enum Grammar {
    BoxFile,
    Script,
    /// A script of two systems in a chain.
    Chain,
    Plan,
    Schedule,
    Handover,
}

/// The form of a line.
#[derive(Clone, Copy)]
pub struct LineForm {
    /// What the line is to be, and the ranges of its numbers.
    pub form: &'static str,
    /// A line of this form.
    pub example: &'static str,
}

/// The first word of a line, its form and an example; no word where it is a number.
type FormRow = (&'static str, &'static str, &'static str);

static BOX_LINES: [FormRow; 15] = [
    (
        "box",
        "box KIND, one of count, monitor, nat, balancer",
        "box nat",
    ),
    ("threads", "threads N, of 1 to 16", "threads 4"),
    ("seed", "seed S, below 2^64", "seed 7"),
    ("shards", "shards S, of 1 to 64", "shards 16"),
    ("vlan", "the word alone", "vlan"),
    ("seal", "the word alone", "seal"),
    (
        "inside",
        "inside ADDRESS LENGTH, of 1 to 32 bits",
        "inside 10.0.0.0 8",
    ),
    ("outside", "outside ADDRESS", "outside 203.0.113.1"),
    (
        "ports",
        "ports LOW HIGH, of 1 to 65535, LOW at most HIGH",
        "ports 1024 65535",
    ),
    (
        "closing",
        "closing SECONDS, of 1 to 4294967295",
        "closing 240",
    ),
    ("limit", "limit N, of 1 to 65535", "limit 1000"),
    ("icmp", "icmp errors", "icmp errors"),
    (
        "static",
        "static tcp or udp, ADDRESS of the inside network, PORT OUTSIDE_PORT of 1 to 65535; 64 lines at most",
        "static tcp 10.0.0.5 22 2222",
    ),
    (
        "virtual",
        "virtual ADDRESS PORT, of 0 to 65535",
        "virtual 198.51.100.7 80",
    ),
    (
        "backend",
        "backend ADDRESS PORT, of 0 to 65535; 64 lines at most",
        "backend 192.0.2.1 80",
    ),
];

static SCRIPT_LINES: [FormRow; 15] = [
    ("feed", "feed N", "feed 10"),
    ("time", "time N", "time 1000"),
    ("step", "step T, or step T = V", "step 0"),
    ("log", "log T N", "log 0 1"),
    ("out", "out T J", "out 0 1"),
    (
        "late",
        "late E log T N, or late E out T J",
        "late 1 log 0 1",
    ),
    (
        "cut",
        "cut log T N LENGTH, or cut out T J LENGTH",
        "cut log 0 1 8",
    ),
    ("snap", "the word alone", "snap"),
    ("store", "the word alone", "store"),
    ("crash", "the word alone", "crash"),
    ("recover", "the word alone", "recover"),
    ("show", "show V", "show 0"),
    ("settle", "the word alone", "settle"),
    ("flow", "flow N", "flow 10"),
    ("auto", "auto SEED N", "auto 7 100"),
];

static PLAN_LINES: [FormRow; 11] = [
    ("feed", "feed N", "feed 10"),
    ("limit", "limit T M", "limit 0 100"),
    ("take", "take T F", "take 0 10"),
    ("lose", "lose log T N, or lose out T N", "lose log 0 1"),
    ("round", "the word alone", "round"),
    ("snap", "the word alone", "snap"),
    ("store", "the word alone", "store"),
    ("crash", "the word alone", "crash"),
    ("recover", "the word alone", "recover"),
    ("show", "show V", "show 0"),
    ("settle", "the word alone", "settle"),
];

static HANDOVER_LINES: [FormRow; 5] = [
    (
        "handover",
        "handover 1, after its seal if it has one",
        "handover 1",
    ),
    (
        "state",
        "state FED CLOCK DRAWS EPOCH MOVES BYTES, EPOCH below 2^32",
        "state 10 1000 3 2 40 1500",
    ),
    (
        "ended",
        "ended E T ENTRIES OUTPUTS, E and T below 2^32",
        "ended 1 0 12 4",
    ),
    ("released", "released T J, T below 2^32", "released 0 1"),
    ("move", "move T, or move T = A, T below 2^32", "move 0"),
];

static MOVE: FormRow = ("", "T, or T = A, T below 2^32", "0");

static SYSTEM: FormRow = ("", "1 or 2, and then an event as of a script", "1 feed 10");

fn form_from(row: FormRow) -> LineForm {
    let (_, form, example) = row;
    LineForm { form, example }
}

impl Grammar {
    /// The forms of the lines that have a first word, or in a script of a chain a second one.
    fn forms(self) -> &'static [FormRow] {
        match self {
            Grammar::BoxFile => &BOX_LINES,
            Grammar::Script | Grammar::Chain => &SCRIPT_LINES,
            Grammar::Plan => &PLAN_LINES,
            Grammar::Schedule => &[],
            Grammar::Handover => &HANDOVER_LINES,
        }
    }

    /// The words that lines have after the first.
    pub fn later_words(self) -> &'static [&'static str] {
        match self {
            Grammar::BoxFile => &[
                "count", "monitor", "nat", "balancer", "tcp", "udp", "errors",
            ],
            Grammar::Script | Grammar::Chain => &["log", "out", "="],
            Grammar::Plan => &["log", "out"],
            Grammar::Schedule | Grammar::Handover => &["="],
        }
    }

    /// The form of the lines with this first word.
    fn form_named(self, word: &[u8]) -> Option<LineForm> {
        for row in self.forms() {
            if row.0.as_bytes() == word {
                return Some(form_from(*row));
            }
        }
        None
    }

    /// The first word that was meant.
    fn word_near(self, word: &[u8]) -> Option<&'static str> {
        for row in self.forms() {
            if is_meant(word, row.0.as_bytes()) {
                return Some(row.0);
            }
        }
        None
    }

    /// At which place of a line the word stands whose form it has.
    fn first_place(self) -> usize {
        match self {
            Grammar::Chain => 1,
            _ => 0,
        }
    }

    /// The form that a line is to have, by its first words.
    pub fn form_of(self, line: &[u8]) -> Option<LineForm> {
        match self {
            Grammar::Schedule => Some(form_from(MOVE)),
            Grammar::Chain if !names_system(line) => Some(form_from(SYSTEM)),
            _ => match word_at(line, self.first_place()) {
                Some(word) => self.form_named(word),
                None => Some(form_from(SYSTEM)),
            },
        }
    }
}

/// Whether a line begins as those of a chain's script do.
fn names_system(line: &[u8]) -> bool {
    let word = first_word(line);
    word == b"1".as_slice() || word == b"2".as_slice()
}

/// A word of a line that is in no line of its grammar, and the word that was meant.
#[derive(Clone, Copy)]
pub struct Stranger<'a> {
    pub word: &'a [u8],
    pub near: Option<&'static str>,
}

/// The first word of a line that is in no line of this grammar, and is no number.
pub fn stranger_in(grammar: Grammar, line: &[u8]) -> Option<Stranger<'_>> {
    match grammar {
        Grammar::Schedule => stranger_after(grammar, line),
        Grammar::Chain if !names_system(line) => None,
        _ => {
            let word = word_at(line, grammar.first_place())?;
            match grammar.form_named(word) {
                Some(_) => stranger_after(grammar, line),
                None => Some(Stranger {
                    word,
                    near: grammar.word_near(word),
                }),
            }
        }
    }
}

/// The same of the words after the one whose form the line has.
fn stranger_after(grammar: Grammar, line: &[u8]) -> Option<Stranger<'_>> {
    let known = grammar.later_words();
    let first = grammar.first_place();
    let mut place: usize = 0;
    for word in words(line) {
        if place > first && !is_known(word, known) {
            let near = nearest(word, known);
            return Some(Stranger { word, near });
        }
        place = place.saturating_add(1);
    }
    None
}

/// Whether a word is one of these, or begins as a number does.
fn is_known(word: &[u8], known: &[&'static str]) -> bool {
    for known in known {
        if known.as_bytes() == word {
            return true;
        }
    }
    match word.first() {
        Some(first) => first.is_ascii_digit(),
        None => false,
    }
}
