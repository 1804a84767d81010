//! Calls that are counted, and of which some are to fail.

ghost use Rattle.std.specs.Prelude.{◌≡◌, ◌++◌, [], ◌∷◌, OnOk, OnErr};
ghost use Rattle.prta_outside.specs.Calls.{refuses_next, counted};

use prta_mass::NoMemory;
use std::alloc::Global;
use std::marker::Model;

// The count of calls stays at its last value.
#[derive(Debug, Drop)]
pub(crate) struct Calls {
    made: u64,
    refused: Vec<u64>,
}

impl Model for Calls {
    ghost use Rattle.prta_outside.specs.Calls.{CallState};

    ghost Value = { CallState };

    ghost view = { λ c. record { made = c.made; refused = c.refused.items } };
}

impl Calls {
    pub(crate) fn new(alloc: Global) -> Calls
        ensures { result ≡ record { made = 0; refused = [] } }
    {
        Calls {
            made: 0,
            refused: Vec::new(alloc),
        }
    }

    // Lets the call of this number, from 1 on, fail.
    pub(crate) fn refuse(&mut self, call: u64) -> Result<(), NoMemory>
        ensures listed { OnOk result (self.new ≡ record self.old { refused = self.old.refused ++ call ∷ [] }) }
        ensures unchanged { OnErr result (self.new ≡ self.old) }
    {
        self.refused.push(call)?;
        Ok(())
    }

    // Counts a call, and says whether it is to fail.
    pub(crate) fn count(&mut self) -> bool
        ensures refused { result ≡ refuses_next self.old }
        ensures counted { self.new ≡ counted self.old }
    {
        self.made = self.made.saturating_add(1);
        self.refused.contains(&self.made)
    }
}
