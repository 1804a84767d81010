//! Certificates.

ghost use Rattle.std.specs.Prelude.{◌≡◌, [], ◌∷◌, ◌++◌, OnOk, OnErr};

use crate::level::CertLevel;
use prta_mass::NoMemory;
use std::alloc::Global;
use std::marker::Model;

/// What is stated of each task of a sheet, in sheet order.
#[derive(Debug, Drop)]
pub struct Certificate {
    levels: Vec<CertLevel>,
}

impl Model for Certificate {
    ghost use Rattle.std.specs.Prelude.{List};
    ghost use Rattle.prta_certfile.specs.declared.level.CertLevel.{CertLevel as Level};

    ghost Value = { List Level };

    ghost view = { λ c. c.levels.items };
}

impl Certificate {
    /// An empty certificate. It takes no memory.
    pub fn new(alloc: Global) -> Certificate
        ensures { result ≡ [] }
    {
        Certificate {
            levels: Vec::new(alloc),
        }
    }

    /// Appends the level of the next task. On want of memory the level is dropped, and the certificate is as before.
    pub fn push(&mut self, level: CertLevel) -> Result<(), NoMemory>
        ensures pushed { OnOk result (self.new ≡ self.old ++ level ∷ []) }
        ensures unchanged { OnErr result (self.new ≡ self.old) }
    {
        self.levels.push(level)?;
        Ok(())
    }

    /// The levels, in sheet order.
    pub fn levels(&self) -> &[CertLevel]
        ensures { result.now ≡ self.now }
    {
        &self.levels
    }
}
