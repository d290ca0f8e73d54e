//! Keepers that nobody else can write on.
ghost use Rattle.gaz_mirror.specs.Bare.{RestsBare, bare_in};

use gaz_keeper::Inbox;
use gaz_shelf::MemShelf;

/// A keeper that has what it keeps to itself: nobody else can write on it. Where no judgement is in
/// progress it has no working view.
pub trait Unshared: Inbox {
    ghost never_harmed: { (k : Self) → (Self.seen k).unharmed };

    ghost rests_bare: { RestsBare Self.seen };
}

impl Unshared for MemShelf {
    ghost never_harmed = { λ _. tt };

    ghost rests_bare = { λ k. bare_in k.judging k.accounts.by_code.entries };
}
