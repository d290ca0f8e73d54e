//! Custodians by their codes.
ghost use Rattle.std.specs.Prelude.{◌≡◌, ◌++◌, ◌∷◌, [], OnOk};

use gaz_ids::Code;
use std::alloc::{AllocError, Global};
use std::marker::Model;

/// Custodians by their codes.
#[derive(Drop)]
pub struct Codes {
    codes: Vec<Code>,
}

impl Model for Codes {
    ghost use Rattle.std.specs.Prelude.{List, ℕ};

    ghost Value = { List ℕ };

    ghost view = { λ c. c.codes.items };
}

impl Codes {
    /// No codes.
    pub fn new(alloc: Global) -> Codes
        ensures { result ≡ [] }
    {
        Codes {
            codes: Vec::new(alloc),
        }
    }

    /// The codes, as a slice.
    pub fn as_slice(&self) -> &[Code]
        ensures { result.now ≡ self.now }
    {
        self.codes.as_slice()
    }

    /// Adds a code behind the others.
    pub fn push(&mut self, code: Code) -> Result<(), AllocError>
        ensures { OnOk result (self.new ≡ self.old ++ code ∷ []) }
    {
        self.codes.push(code)?;
        Ok(())
    }
}
