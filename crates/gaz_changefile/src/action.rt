ghost use Rattle.std.specs.Prelude.{◌≡◌};
ghost use Rattle.gaz_changefile.specs.Lines.{action_of};
ghost use Rattle.gaz_changefile.specs.Writing.{action_text};

/// What a change does to its item.
#[derive(Clone, Copy)]
pub enum Action {
    Insert,
    Update,
    Delete,
}

impl Action {
    /// The change type that is written `I`, `U` or `D`.
    pub fn read(text: &[u8]) -> Option<Action>
        ensures { result ≡ action_of text.now }
    {
        if text == b"I".as_slice() {
            Some(Action::Insert)
        } else if text == b"U".as_slice() {
            Some(Action::Update)
        } else if text == b"D".as_slice() {
            Some(Action::Delete)
        } else {
            None
        }
    }

    /// `I`, `U` or `D`.
    pub fn text(self) -> &'static [u8]
        ensures { result.now ≡ action_text self }
    {
        match self {
            Action::Insert => b"I",
            Action::Update => b"U",
            Action::Delete => b"D",
        }
    }
}
