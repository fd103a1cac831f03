//! How many threads compose the jobs of a round.
ghost use Rattle.std.specs.Prelude.{◌≡◌, ◌≤◌};

use std::marker::Model;

/// How many workers there are at most.
const MOST: usize = 64;

/// How many workers compose the jobs of a round, and from which weight of these on there is more than one.
#[derive(Clone, Copy)]
pub struct Workers {
    count: usize,
    from: usize,
}

impl Model for Workers {
    ghost use Rattle.odb_par.specs.Workers as model;

    ghost Value = { model.Workers };

    ghost coded = { model.workers_code };

    ghost view = { λ w. record { count = w.count; from = w.from } };

    ghost inverse = { λ w. record { count = w.count; from = w.from } };
}

impl Workers {
    ghost use Rattle.odb_par.specs.Workers.{count_for};

    /// Makes so many workers, 1 where there are none and 64 where there are more, for jobs that weigh `from` or more.
    pub fn new(count: usize, from: usize) -> Workers
        ensures { result ≡ record { count = count; from = from } }
    {
        Workers { count, from }
    }

    /// Returns how many of them compose jobs of this weight. O(1).
    pub fn for_weight(self, weight: usize) -> usize
        ensures count { result ≡ count_for weight self }
        ensures some { (1 ≤ result) × (result ≤ 64) }
    {
        if weight < self.from || self.count == 0 {
            return 1;
        }
        self.count.min(MOST)
    }
}
