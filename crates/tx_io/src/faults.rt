//! Counts of faults.
ghost use Rattle.std.specs.Prelude.{◌≡◌, ◌≤◌, is_err};
ghost use Rattle.tx_io.specs.Causes.{counted, counted_by};
ghost use Rattle.tx_io.specs.Planned.{is_planned};

use crate::traits::Failed;

/// A count of faults, which stops at the greatest 64-bit number.
#[derive(Clone, Copy)]
pub struct Faults {
    pub count: u64,
}

impl Faults {
    pub fn new() -> Faults
        ensures { result.count ≡ 0 }
    {
        Faults { count: 0 }
    }

    /// Counts a fault.
    pub fn fault(&mut self) -> Failed
        ensures counts { self.new.count ≡ counted self.old.count }
        ensures later { self.old.count ≤ self.new.count }
    {
        self.count = self.count.saturating_add(1);
        Failed
    }
}

/// The numbers of the calls that are to fail, from 1, and how many calls and faults there were.
#[derive(Drop)]
pub struct Plan {
    pub failing: Vec<u64>,
    pub calls: u64,
    pub faults: Faults,
}

impl Plan {
    pub fn new(failing: Vec<u64>) -> Plan
        ensures failing { result.failing.items ≡ failing.items }
        ensures calls { result.calls ≡ 0 }
        ensures faults { result.faults.count ≡ 0 }
    {
        Plan {
            failing,
            calls: 0,
            faults: Faults::new(),
        }
    }

    /// Counts a call, which fails where that is planned.
    pub fn call(&mut self) -> Result<(), Failed>
        ensures failing { self.new.failing ≡ self.old.failing }
        ensures calls { self.new.calls ≡ counted self.old.calls }
        ensures fails { is_err result ≡ is_planned self.old.failing.items self.new.calls }
        ensures faults { self.new.faults.count ≡ counted_by result self.old.faults.count }
    {
        self.calls = self.calls.saturating_add(1);
        if self.failing.contains(&self.calls) {
            return Err(self.faults.fault());
        }
        Ok(())
    }
}
