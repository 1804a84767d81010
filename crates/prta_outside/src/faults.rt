//! The names of failed reads.

ghost use Rattle.std.specs.Prelude.{◌≡◌, ◌-◌, ◌++◌, [], ◌∷◌, length, take, IfOk, OnOk, OnErr};

use prta_mass::NoMemory;
use std::alloc::Global;
use std::marker::Model;

// A name whose fault is noted. Only `Faults::note` makes one, so that what asks for it comes after the memory is taken.
#[derive(Clone, Copy, Debug)]
pub(crate) struct Noted<'a> {
    name: &'a str,
}

impl<'a> Noted<'a> {
    pub(crate) fn name(self) -> &'a str
        ensures { result.now ≡ self.entry.name.now }
    {
        self.name
    }
}

// The names of failed reads, in order.
#[derive(Debug, Drop)]
pub(crate) struct Faults {
    names: Vec<String>,
}

impl Model for Faults {
    ghost use Rattle.std.specs.Prelude.{List, ℕ, map, string_bytes};

    ghost Value = { List (List ℕ) };

    ghost view = { λ f. map string_bytes f.names.items };
}

impl Faults {
    pub(crate) fn new(alloc: Global) -> Faults
        ensures { result ≡ [] }
    {
        Faults {
            names: Vec::new(alloc),
        }
    }

    // Notes the fault of a read that is still to come, since this takes memory.
    pub(crate) fn note<'a>(&mut self, alloc: Global, name: &'a str) -> Result<Noted<'a>, NoMemory>
        ensures noted { OnOk result (self.new ≡ self.old ++ name.now ∷ []) }
        ensures same { IfOk result (λ noted. noted.name.now ≡ name.now) }
        ensures unchanged { OnErr result (self.new ≡ self.old) }
    {
        let copy = String::from_str(alloc, name)?;
        self.names.push(copy)?;
        Ok(Noted { name })
    }

    // The names, for tests.
    #[cfg(test)]
    pub(crate) fn names(&self) -> &[String] {
        &self.names
    }

    // Takes back the newest note, where the read didn't fail.
    pub(crate) fn take_back(&mut self)
        ensures { self.new ≡ take (length self.old - 1) self.old }
    {
        self.names.pop();
    }
}
