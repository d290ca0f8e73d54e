//! What a keeper can be asked.
ghost use Rattle.std.specs.Prelude.{ℕ};
ghost use Rattle.gaz_keeper.specs.Keeper.{Content, Reads, view_of};
ghost use Rattle.gaz_views.specs.View.{View};

use gaz_keeper::{Inbox, ShelfFault};

/// A reading of a keeper.
pub(crate) trait Question {
    type Answer: Drop;

    // An answer is right where this is the content, and these are the custodians' views.
    ghost is_right: { Self → Content → (ℕ → View) → Self.Answer → Type 0 };

    // Asks a keeper.
    fn ask<K: Inbox>(&self, keeper: &mut K) -> Result<Self::Answer, ShelfFault>
        ensures { Reads (K.seen keeper.old) (K.seen keeper.new) result
            (is_right self.now (K.seen keeper.old).content (view_of (K.seen keeper.old))) };
}
