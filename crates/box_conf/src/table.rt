ghost use Rattle.std.specs.Prelude.{◌≡◌, [], option_map};
ghost use Rattle.plain_text.specs.Grammar.{is_within, misfit, value_at};
ghost use Rattle.box_conf.specs.Settings.{put_before};
ghost use Rattle.box_conf.specs.Table.{word_of, grammar_place, places_of, again_of};
ghost use Rattle.box_conf.specs.Table.{usual_of, fits_of, values_from};

use plain_text::{LineCause, read_address, read_u64};

/// A line of a box file after the first, by its first word. It may stand once, but for `static` and `backend`.
#[derive(Clone, Copy, Debug, PartialEq, Eq)]
pub enum BoxLine {
    Threads,
    Seed,
    Shards,
    Vlan,
    Inside,
    Outside,
    Ports,
    Closing,
    Limit,
    Icmp,
    Static,
    Virtual,
    Backend,
    Seal,
}

/// What stands at a place of a line.
#[derive(Clone, Copy, Debug, PartialEq, Eq)]
pub enum LinePlace {
    /// A number, with the least and the greatest that it may be.
    Number { low: u64, high: u64 },
    /// An IPv4 address, of four decimal numbers with points between them.
    Address,
    /// The word `tcp`, whose value is 0, or `udp`, whose value is 1.
    Protocol,
    /// The word `errors`, whose value is 0.
    Errors,
}

/// A port of an endpoint: none has number 0.
const PORT: LinePlace = LinePlace::Number {
    low: 1,
    high: 65_535,
};

/// The values of a line's words after its first, at most four; those that are not there are 0. An address is a number
/// below 2^32.
#[derive(Clone, Copy, Debug, PartialEq, Eq)]
pub struct Values {
    pub first: u64,
    pub second: u64,
    pub third: u64,
    pub fourth: u64,
}

impl Values {
    /// The values of a line that has none.
    pub fn none() -> Values
        ensures { result ≡ values_from [] }
    {
        Values {
            first: 0,
            second: 0,
            third: 0,
            fourth: 0,
        }
    }

    /// The values with one more before them.
    pub fn behind(self, first: u64) -> Values
        ensures { result ≡ put_before first self }
    {
        Values {
            first,
            second: self.first,
            third: self.second,
            fourth: self.third,
        }
    }
}

impl LinePlace {
    /// The value of a word there, if it has the form that it has to have.
    pub fn value(self, word: &[u8]) -> Option<u64>
        ensures { result ≡ value_at (grammar_place self) word.now }
    {
        match self {
            LinePlace::Number { .. } => read_u64(word),
            LinePlace::Address => Some(u64::from(read_address(word)?)),
            LinePlace::Protocol => {
                if word == b"tcp".as_slice() {
                    Some(0)
                } else if word == b"udp".as_slice() {
                    Some(1)
                } else {
                    None
                }
            }
            LinePlace::Errors => {
                if word == b"errors".as_slice() {
                    Some(0)
                } else {
                    None
                }
            }
        }
    }

    /// The fault of a word there that has another form.
    pub fn misfit(self) -> LineCause
        ensures { result ≡ misfit (grammar_place self) }
    {
        match self {
            LinePlace::Number { .. } | LinePlace::Address => LineCause::BadNumber,
            LinePlace::Protocol | LinePlace::Errors => LineCause::UnknownWord,
        }
    }

    /// Whether a value is in the range of the place.
    pub fn has(self, value: u64) -> bool
        ensures { result ≡ is_within (grammar_place self) value }
    {
        match self {
            LinePlace::Number { low, high } => low <= value && value <= high,
            LinePlace::Address | LinePlace::Protocol | LinePlace::Errors => true,
        }
    }
}

impl BoxLine {
    /// The first word of the line.
    pub fn word(self) -> &'static [u8]
        ensures { result.now ≡ word_of self }
    {
        match self {
            BoxLine::Threads => b"threads",
            BoxLine::Seed => b"seed",
            BoxLine::Shards => b"shards",
            BoxLine::Vlan => b"vlan",
            BoxLine::Inside => b"inside",
            BoxLine::Outside => b"outside",
            BoxLine::Ports => b"ports",
            BoxLine::Closing => b"closing",
            BoxLine::Limit => b"limit",
            BoxLine::Icmp => b"icmp",
            BoxLine::Static => b"static",
            BoxLine::Virtual => b"virtual",
            BoxLine::Backend => b"backend",
            BoxLine::Seal => b"seal",
        }
    }

    /// What stands after it, word by word.
    pub fn places(self) -> &'static [LinePlace]
        ensures { result.now ≡ places_of self }
    {
        match self {
            BoxLine::Threads => &[LinePlace::Number { low: 1, high: 16 }],
            BoxLine::Seed => &[LinePlace::Number {
                low: 0,
                high: u64::MAX,
            }],
            BoxLine::Shards => &[LinePlace::Number { low: 1, high: 64 }],
            BoxLine::Vlan | BoxLine::Seal => &[],
            BoxLine::Inside => &[LinePlace::Address, LinePlace::Number { low: 1, high: 32 }],
            BoxLine::Outside => &[LinePlace::Address],
            BoxLine::Ports => &[PORT, PORT],
            BoxLine::Closing => &[LinePlace::Number {
                low: 1,
                high: 4_294_967_295,
            }],
            BoxLine::Limit => &[PORT],
            BoxLine::Icmp => &[LinePlace::Errors],
            BoxLine::Static => &[LinePlace::Protocol, LinePlace::Address, PORT, PORT],
            BoxLine::Virtual | BoxLine::Backend => &[
                LinePlace::Address,
                LinePlace::Number {
                    low: 0,
                    high: 65_535,
                },
            ],
        }
    }

    /// Whether more than one such line may stand.
    pub fn stands_again(self) -> bool
        ensures { result ≡ again_of self }
    {
        self == BoxLine::Static || self == BoxLine::Backend
    }

    /// Whether values, each in its range, fit one another: the first port is not above the last.
    pub fn fits(self, values: Values) -> bool
        ensures { result ≡ fits_of self values }
    {
        match self {
            BoxLine::Ports => values.first <= values.second,
            BoxLine::Threads
            | BoxLine::Seed
            | BoxLine::Shards
            | BoxLine::Vlan
            | BoxLine::Inside
            | BoxLine::Outside
            | BoxLine::Closing
            | BoxLine::Limit
            | BoxLine::Icmp
            | BoxLine::Static
            | BoxLine::Virtual
            | BoxLine::Backend
            | BoxLine::Seal => true,
        }
    }

    /// The values that hold where the line is not there. A line that has none has to stand. `closing` is 0 then: no
    /// connection is followed; `limit` is 0: there is none; and `icmp`, `vlan` and `seal` are 1: no such line
    /// stands.
    pub fn usual(self) -> Option<Values>
        ensures { result ≡ option_map values_from (usual_of self) }
    {
        let (first, second) = match self {
            BoxLine::Threads | BoxLine::Vlan | BoxLine::Icmp | BoxLine::Seal => (1, 0),
            BoxLine::Seed | BoxLine::Closing | BoxLine::Limit | BoxLine::Static => (0, 0),
            BoxLine::Shards => (16, 0),
            BoxLine::Inside | BoxLine::Outside | BoxLine::Virtual | BoxLine::Backend => return None,
            BoxLine::Ports => (1024, 65_535),
        };
        Some(Values {
            first,
            second,
            third: 0,
            fourth: 0,
        })
    }
}
