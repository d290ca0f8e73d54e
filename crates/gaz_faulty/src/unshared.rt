//! A keeper around one that nobody else can write on.
ghost use Rattle.gaz_faulty.specs.Bare.{bare_around};
ghost use Rattle.gaz_faulty.specs.Faulting.{progress_around};

use crate::faulty::Faulty;
use gaz_mirror::Unshared;

impl<K: Unshared + Drop> Unshared for Faulty<K> {
    ghost never_harmed = { λ k. K.never_harmed k.inner };

    ghost rests_bare = { λ k. bare_around (progress_around k.broken (K.seen k.inner).progress)
        (K.seen k.inner).content };
}
