//! A keeper over two.
ghost use Rattle.std.specs.Prelude.{◌≡◌, ◌↔◌, None, Some, IsSome, IsTrue};
ghost use Rattle.std.specs.Option.{ForSome};
ghost use Rattle.gaz_keeper.specs.Keeper.{Idle};
ghost use Rattle.gaz_mirror.specs.InStep.{IsAhead, IsInStep};

use crate::gathered::Gathered;
use crate::unshared::Unshared;
use gaz_keeper::Inbox;
use std::alloc::Global;

/// Keeps one content twice: below, where it is to last, and at hand above, where it is read.
///
/// A judgement is made above and gathered, and handed down in one go when it is kept; one that is
/// given up never comes below. Every other change goes to the lower keeper first, and is answered
/// by it. Each reading is answered by the upper one, or by the lower one where the upper one can't:
/// what is gathered is handed down before. After any fault of either in a change the upper one is
/// dropped, and the lower one answers everything; so too where that can't make sure between
/// judgements.
#[derive(Drop)]
pub struct Mirror<L: Inbox + Drop, U: Unshared + Drop> {
    pub(crate) lower: L,
    pub(crate) upper: Option<U>,
    pub(crate) gathered: Option<Gathered>,
    pub(crate) alloc: Global,
    ghost in_step: { gathered ≡ None
        → ForSome upper (λ u. IsInStep (L.seen lower).progress (U.seen u).progress) },
    ghost at_hand: { ForSome gathered (λ _. IsSome upper) },
    ghost ahead: { ForSome gathered (λ g.
        ForSome upper (λ u. IsAhead (L.seen lower).progress (U.seen u).progress g)) },
}

impl<L: Inbox + Drop, U: Unshared + Drop> Mirror<L, U> {
    ghost use Rattle.gaz_mirror.specs.Mirrored.{seen_mirrored};

    /// Over a keeper, without one at hand.
    pub fn over(alloc: Global, lower: L) -> Mirror<L, U>
        ensures lower { result.lower ≡ lower }
        ensures alone { result.upper ≡ None }
        ensures apart { result.gathered ≡ None }
        ensures stands { (L.seen lower).stands → (seen_mirrored result).stands }
    {
        Mirror {
            lower,
            upper: None,
            gathered: None,
            alloc,
        }
    }

    /// Over a keeper, with one at hand that has the same content. Neither may be judging.
    pub fn with(alloc: Global, lower: L, upper: U) -> Mirror<L, U>
        requires lower { (L.seen lower).progress ≡ Idle }
        requires upper { (U.seen upper).progress ≡ Idle }
        ensures lower { result.lower ≡ lower }
        ensures upper { result.upper ≡ Some upper }
        ensures apart { result.gathered ≡ None }
        ensures stands { (L.seen lower).stands → (U.seen upper).stands
            → (U.seen upper).content ≡ (L.seen lower).content → (seen_mirrored result).stands }
    {
        Mirror {
            lower,
            upper: Some(upper),
            gathered: None,
            alloc,
        }
    }

    /// Whether there is a keeper at hand.
    pub fn has_upper(&self) -> bool
        ensures { IsTrue result ↔ IsSome self.now.upper }
    {
        self.upper.is_some()
    }

    /// The lower keeper, and the one at hand where there is one. A judgement that was gathered is
    /// lost: the lower keeper never knew of it.
    pub fn into_parts(self) -> (L, Option<U>)
        ensures lower { result.0 ≡ self.lower }
        ensures upper { result.1 ≡ self.upper }
    {
        let Mirror { lower, upper, .. } = self;
        (lower, upper)
    }
}
