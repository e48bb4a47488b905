ghost use Rattle.std.specs.Prelude.{◌≡◌, ◌↔◌, [], IsTrue, OnOk, OnErr};
ghost use Rattle.ap_desk.specs.Calls.{IsDue, counted, with_failing};

use std::alloc::{AllocError, Global};
use std::marker::Model;

/// The calls of one kind, counted from 0: which are to fail, and the number of the next.
#[derive(Drop)]
pub struct Calls {
    failing: Vec<u64>,
    next: u64,
}

impl Model for Calls {
    ghost use Rattle.ap_desk.specs.Calls.{CallPlan};

    ghost Value = { CallPlan };

    ghost view = { λ c. record { failing = c.failing.items; next = c.next } };
}

impl Calls {
    pub fn new(alloc: Global) -> Calls
        ensures { result ≡ record { failing = []; next = 0 } }
    {
        Calls {
            failing: Vec::new(alloc),
            next: 0,
        }
    }

    /// Makes the call of this number fail; after an error nothing has changed.
    pub fn fail(&mut self, number: u64) -> Result<(), AllocError>
        ensures ok { OnOk result (self.new ≡ with_failing self.old number) }
        ensures err { OnErr result (self.new ≡ self.old) }
    {
        self.failing.push(number)?;
        Ok(())
    }

    /// Counts a call, and says whether it is to fail.
    pub fn advance(&mut self) -> bool
        ensures fails { IsTrue result ↔ IsDue self.old }
        ensures next { self.new ≡ counted self.old }
    {
        let fails = self.failing.contains(&self.next);
        self.next = self.next.saturating_add(1);
        fails
    }
}
