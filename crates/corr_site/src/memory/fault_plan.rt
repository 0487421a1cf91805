//! Which calls of an object in memory are to fail, and what it counted.

ghost use Rattle.std.specs.Prelude.{◌≡◌, ◌≤◌};
ghost use Rattle.corr_site.specs.Outside.{Rises};
ghost use Rattle.corr_site.specs.Memory.{unused, is_failing, called, raised, least_call};

use std::marker::Model;

/// The numbers from 0 of the calls that are to fail, and how many calls and faults there were.
#[derive(Debug, Drop)]
pub struct FaultPlan {
    fails: Vec<u64>,
    begin_fails: bool,
    calls: u64,
    count: u64,
}

impl Model for FaultPlan {
    ghost use Rattle.corr_site.specs.Memory.{Faults};

    ghost Value = { Faults };

    ghost view = { λ s. record {
      fails = s.fails.items;
      begin_fails = s.begin_fails;
      calls = s.calls;
      count = s.count;
    } };
}

impl FaultPlan {
    /// A plan by which these calls fail, and `begin` too if it is said so.
    pub fn new(fails: Vec<u64>, begin_fails: bool) -> FaultPlan
        ensures { result ≡ unused fails.items begin_fails }
    {
        FaultPlan {
            fails,
            begin_fails,
            calls: 0,
            count: 0,
        }
    }

    /// Whether `begin` is to fail.
    pub fn begin_fails(&self) -> bool
        ensures { result ≡ self.now.begin_fails }
    {
        self.begin_fails
    }

    /// How many calls there were.
    pub fn calls(&self) -> u64
        ensures { result ≡ self.now.calls }
    {
        self.calls
    }

    /// How many faults there were.
    pub fn count(&self) -> u64
        ensures { result ≡ self.now.count }
    {
        self.count
    }

    /// Counts a call, and says whether it is to fail.
    pub fn call(&mut self) -> bool
        ensures fails { result ≡ is_failing self.old }
        ensures counted { self.new ≡ called self.old }
    {
        let fails = self.fails.contains(&self.calls);
        self.calls = self.calls.saturating_add(1);
        fails
    }

    /// Counts a fault.
    pub fn raise(&mut self)
        ensures raised { self.new ≡ raised self.old }
        ensures rises { Rises self.old.count self.new.count }
    {
        self.count = self.count.saturating_add(1);
    }

    /// The least of the numbers that are to fail, if one is below `len`, and else `len`.
    pub fn least_of(&self, len: usize) -> usize
        ensures least { result ≡ least_call len self.now.fails }
        ensures within { result ≤ len }
    {
        let mut least = len;
        for call in &self.fails {
            least = least.min(*call as usize);
        }
        least
    }
}
