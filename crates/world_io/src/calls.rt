ghost use Rattle.std.specs.Prelude.{◌≡◌, IsTrue, OnOk, OnErr, false};
ghost use Rattle.world_io.specs.Calls.{counted, next_fails, after_call, after_fault, with_failing};
ghost use Rattle.world_io.specs.Memory.{no_calls};

use plain_text::NoMemory;
use std::alloc::Global;
use std::marker::Model;

/// The calls of one kind, reading or writing, that a world in memory had, and which of them fail.
#[derive(Drop)]
pub struct Calls {
    made: u64,
    failing: Vec<u64>,
    faults: u64,
}

impl Model for Calls {
    ghost use Rattle.world_io.specs.Calls.{CallCount};

    ghost Value = { CallCount };

    ghost view = { λ c. record { made = c.made; failing = c.failing.items; faults = c.faults } };
}

impl Calls {
    /// No calls yet, and none that is to fail. It takes no memory.
    pub fn new(alloc: Global) -> Calls
        ensures { result ≡ no_calls }
    {
        Calls {
            made: 0,
            failing: Vec::new(alloc),
            faults: 0,
        }
    }

    /// Makes the call of this number fail, counted from 1 over the life of the world.
    pub fn fail(&mut self, nth: u64) -> Result<(), NoMemory>
        ensures ok { OnOk result (self.new ≡ with_failing nth self.old) }
        ensures err { OnErr result (self.new ≡ self.old) }
    {
        self.failing.push(nth)?;
        Ok(())
    }

    /// Counts a call, and tells whether it fails.
    pub fn next_fails(&mut self) -> bool
        ensures fails { result ≡ next_fails self.old }
        ensures fault { IsTrue result → self.new ≡ after_fault self.old }
        ensures passed { result ≡ false → self.new ≡ after_call self.old }
    {
        self.made = self.made.saturating_add(1);
        let fails = self.failing.contains(&self.made);
        if fails {
            self.faults = self.faults.saturating_add(1);
        }
        fails
    }

    /// Counts a fault of a call that was counted.
    pub fn fault(&mut self)
        ensures { self.new ≡ record self.old { faults = counted self.old.faults } }
    {
        self.faults = self.faults.saturating_add(1);
    }
}
