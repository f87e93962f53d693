ghost use Rattle.std.specs.Prelude.{◌≡◌, ℕ, ◌+◌, ◌-◌, ◌%◌, ◌^◌, ◌<◌, ◌≤◌, slice_index, []};
ghost use Rattle.std.specs.List.{remove, sum_by};
ghost use Rattle.nat_tables.specs.Ports.{one_if, with_port};
ghost use Rattle.nat_tables.specs.Placing.{group_ports, word_count, IsCounted, FallsIn};

use crate::port_word::{count_in_word, put_into_word, take_from_word};

/// The free ports of one parity among 1,024 numbers in a row: a bit for each port, and how many are free.
#[derive(Clone, Copy, Debug)]
pub(crate) struct Group {
    pub(crate) count: u16,
    words: [u64; 8],
}

/// The word of the port at the index, and the index among those of that word.
fn find_word(words: &[u64; 8], at: u16) -> (usize, u16)
    requires { at < sum_by word_count words.now }
    ensures { FallsIn word_count words.now at result.0 result.1 }
{
    let mut left = at;
    for (index, word) in words.iter().enumerate() {
        let count = count_in_word(*word);
        if left < count {
            return (index, left);
        }
        left -= count;
    }
    (0, left)
}

impl Group {
    /// No free port.
    pub(crate) fn empty() -> Self
        ensures counted { IsCounted result }
        ensures count { result.count ≡ 0 }
        ensures ports { (first : ℕ) → group_ports first result ≡ [] }
    {
        Group {
            count: 0,
            words: [0; 8],
        }
    }

    /// Takes out the port at the index, where the lowest bit stands for the port `first`.
    pub(crate) fn take(&mut self, first: u16, at: u16) -> u16
        requires counted { IsCounted self.old }
        requires within { at < self.old.count }
        requires fits { first + 1022 < 2 ^ 16 }
        ensures port { result ≡ slice_index (group_ports first self.old) at }
        ensures others { group_ports first self.new ≡ remove (group_ports first self.old) at }
        ensures counted { IsCounted self.new }
        ensures count { self.new.count + 1 ≡ self.old.count }
    {
        let (index, left) = find_word(&self.words, at);
        let mut word = self.words[index];
        let port = take_from_word(&mut word, first + 128 * index as u16, left);
        self.words[index] = word;
        self.count -= 1;
        port
    }

    /// Puts a port in, where the lowest bit stands for the port `first`, and answers whether it was missing.
    pub(crate) fn put(&mut self, first: u16, port: u16) -> bool
        requires counted { IsCounted self.old }
        requires low { first ≤ port }
        requires high { port < first + 1024 }
        requires parity { (port - first) % 2 ≡ 0 }
        ensures ports { group_ports first self.new ≡ with_port port (group_ports first self.old) }
        ensures counted { IsCounted self.new }
        ensures count { self.new.count ≡ self.old.count + one_if result }
    {
        let index = usize::from((port - first) / 128);
        let mut word = self.words[index];
        let missing = put_into_word(&mut word, first + 128 * index as u16, port);
        self.words[index] = word;
        if missing {
            self.count += 1;
        }
        missing
    }
}
