//! Which places of a crew have a run in flight.
ghost use Rattle.std.specs.Prelude.{◌≡◌, ◌≤◌, ◌*◌, ◌↔◌, bit_and, bit_or, count_ones, IsTrue};
ghost use Rattle.std.specs.Int.{bit_not, w64};

/// The places of runs in flight, and of those that are done, each by its bit.
#[derive(Drop)]
pub struct Flight {
    runs: u64,
    done: u64,
}

impl Flight {
    /// With these runs, none of which is done.
    pub fn new(runs: u64) -> Flight
        ensures { result ≡ record { runs = runs; done = 0 } }
    {
        Flight { runs, done: 0 }
    }

    /// Notes that these are done, too.
    pub fn note(&mut self, done: u64)
        ensures { self.new ≡ record { runs = self.old.runs; done = bit_or self.old.done done } }
    {
        self.done |= done;
    }

    /// Those that are done.
    pub fn done(&self) -> u64
        ensures { result ≡ self.now.done }
    {
        self.done
    }

    /// Those of these places whose run isn't done.
    pub fn going_on(&self, places: u64) -> u64
        ensures { result ≡ bit_and places (bit_not w64 self.now.done) }
    {
        places & !self.done
    }

    /// Whether half of the runs in flight are done, or more.
    pub fn is_half_done(&self) -> bool
        ensures { IsTrue result ↔ (count_ones self.now.runs ≤ 2 * count_ones self.now.done) }
    {
        self.done.count_ones() >= self.runs.count_ones().div_ceil(2)
    }

    /// In place of those that are done others run now, at these places.
    pub fn replace(&mut self, others: u64)
        ensures { self.new ≡ record { runs = bit_or (bit_and self.old.runs (bit_not w64 self.old.done)) others; done = 0 } }
    {
        self.runs &= !self.done;
        self.runs |= others;
        self.done = 0;
    }
}
