ghost use Rattle.std.specs.Prelude.{◌≡◌, [], OnOk};
ghost use Rattle.indexmap.specs.IndexMap.{insert_entry};
ghost use Rattle.schedule_check.specs.Contents.{same_content};
ghost use Rattle.schedule_check.specs.Counting.{count_under};

use crate::content::Content;
use indexmap::IndexMap;
use plain_text::NoMemory;
use std::alloc::Global;
use std::marker::Model;

/// How many packets have each content. Contracts see the list of the contents with their counts.
#[derive(Drop)]
pub struct Counts<'a> {
    counts: IndexMap<Content<'a>, u64>,
}

impl<'a> Model for Counts<'a> {
    ghost use Rattle.std.specs.Prelude.{List, ℕ};
    ghost use Rattle.schedule_check.specs.declared.content.Content.{Content};

    ghost Value = { List (Content × ℕ) };

    ghost view = { λ c. c.counts.entries };
}

impl<'a> Counts<'a> {
    /// No packets. It takes no memory.
    pub fn new(alloc: Global) -> Self
        ensures { result ≡ [] }
    {
        Counts {
            counts: IndexMap::new(alloc),
        }
    }

    /// How many have this content.
    pub fn count(&self, content: Content<'a>) -> u64
        ensures { result ≡ count_under (same_content content.entry) self.now }
    {
        self.counts.get(&content).copied().unwrap_or(0)
    }

    /// Says how many have this content.
    pub fn set(&mut self, content: Content<'a>, count: u64) -> Result<(), NoMemory>
        ensures { OnOk result (self.new ≡ insert_entry same_content self.old content.entry count) }
    {
        self.counts.insert(content, count)?;
        Ok(())
    }
}
