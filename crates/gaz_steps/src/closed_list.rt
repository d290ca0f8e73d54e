ghost use Rattle.std.specs.Prelude.{◌≡◌};

use gaz_extract::Closed;
use std::marker::Model;

/// Addresses on closed streets.
#[derive(Drop)]
pub struct ClosedList {
    pub(crate) closed: Vec<Closed>,
}

impl Model for ClosedList {
    ghost use Rattle.std.specs.Prelude.{List};
    ghost use Rattle.gaz_extract.specs.declared.closed.Closed.{Closed};

    ghost Value = { List Closed };

    ghost view = { λ l. l.closed.items };
}

impl ClosedList {
    /// The addresses, in order.
    pub fn as_slice(&self) -> &[Closed]
        ensures { result.now ≡ self.now }
    {
        self.closed.as_slice()
    }
}
