//! Counting what was run.
ghost use Rattle.std.specs.Prelude.{◌≡◌, ℕ};
ghost use Rattle.rig_io.specs.Faults.{raised};

/// A count of operations that were run. It never falls, and stands still at `u64::MAX`.
pub trait Tally {
    /// The count.
    ghost count: { Self → ℕ };

    /// Raises the count by one, below `u64::MAX`.
    fn tick(&mut self)
        ensures { count self.new ≡ raised (count self.old) };

    /// The count.
    fn count(&self) -> u64
        ensures { result ≡ count self.now };
}

/// A count that starts at 0.
#[derive(Debug, Default, Drop)]
pub struct Count {
    ticks: u64,
}

impl Count {
    /// A count of 0.
    pub fn new() -> Count
        ensures { ⟦<Count as Tally>⟧.count result ≡ 0 }
    {
        Count { ticks: 0 }
    }
}

impl Tally for Count {
    ghost count = { λ c. c.ticks };

    fn tick(&mut self) {
        self.ticks = self.ticks.saturating_add(1);
    }

    fn count(&self) -> u64 {
        self.ticks
    }
}
