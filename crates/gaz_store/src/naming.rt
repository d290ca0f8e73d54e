//! Of which register a store is.
ghost use Rattle.std.specs.Prelude.{ℕ, List, []};

use std::marker::Brand;

/// Names the register that a store is of, for contracts alone: no code reads it.
pub trait OfRegister {
    /// The register's canonical text.
    ghost text: { List ℕ };
}

impl OfRegister for Brand {
    ghost text = { [] };
}
