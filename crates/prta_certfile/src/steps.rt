//! Lists of chances by the places where they rise.

ghost use Rattle.std.specs.Prelude.{◌≡◌, [], ◌∷◌, ◌++◌, OnOk, OnErr};
ghost use Rattle.prta_certfile.specs.Steps.{IsSteps};

use prta_mass::NoMemory;
use std::alloc::Global;
use std::marker::Model;

/// The places where a list of chances rises, each with the list's value from there on, in units of 2^-60. Before the
/// first place the list is 0.
#[derive(Debug, Drop)]
pub struct StepList {
    steps: Vec<(u32, u64)>,
}

impl Model for StepList {
    ghost use Rattle.std.specs.Prelude.{ℕ, List};
    ghost use Rattle.prta_certfile.specs.Steps.{IsSteps};

    ghost Value = { List (ℕ × ℕ) };

    ghost view = { λ s. s.steps.items };

    ghost invariant = { λ s. IsSteps s.steps.items };
}

impl StepList {
    /// No steps. It takes no memory.
    pub fn new(alloc: Global) -> StepList
        ensures { result ≡ [] }
    {
        StepList {
            steps: Vec::new(alloc),
        }
    }

    // The list of steps that rise.
    pub(crate) fn of_pairs(pairs: Vec<(u32, u64)>) -> StepList
        requires { IsSteps pairs.items }
        ensures { result ≡ pairs.items }
    {
        StepList { steps: pairs }
    }

    /// Appends a step. On want of memory the list is as before.
    pub fn push(&mut self, place: u32, value: u64) -> Result<(), NoMemory>
        requires rises { IsSteps (self.old ++ (place, value) ∷ []) }
        ensures pushed { OnOk result (self.new ≡ self.old ++ (place, value) ∷ []) }
        ensures unchanged { OnErr result (self.new ≡ self.old) }
    {
        self.steps.push((place, value))?;
        Ok(())
    }

    /// The steps, by rising place.
    pub fn points(&self) -> &[(u32, u64)]
        ensures points { result.now ≡ self.now }
        ensures steps { IsSteps self.now }
    {
        &self.steps
    }
}
