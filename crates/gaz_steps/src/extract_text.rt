ghost use Rattle.std.specs.Prelude.{◌≡◌};

use std::marker::Model;

/// The text of an extract.
#[derive(Drop)]
pub struct ExtractText {
    pub(crate) bytes: Vec<u8>,
}

impl Model for ExtractText {
    ghost use Rattle.std.specs.Prelude.{List, ℕ};

    ghost Value = { List ℕ };

    ghost view = { λ e. e.bytes.items };
}

impl ExtractText {
    /// The bytes.
    pub fn as_slice(&self) -> &[u8]
        ensures { result.now ≡ self.now }
    {
        self.bytes.as_slice()
    }
}
