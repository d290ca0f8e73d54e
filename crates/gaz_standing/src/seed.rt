//! Where hashes begin.
ghost use Rattle.std.specs.Prelude.{◌≡◌, fold};
ghost use Rattle.std.specs.Hash as fed;
ghost use Rattle.std.specs.Hash.FoldHasher as folding;

use std::hash::{BuildHasher, FoldHasher, Hasher};

/// Where the hashes of keys begin. Who picks keys and doesn't foresee the number can hardly pick
/// some that collide; the hasher is a fast one, so that is no promise.
#[derive(Clone, Copy)]
pub struct Seed {
    start: FoldHasher,
}

impl Seed {
    /// The seed of a number.
    pub fn of(number: u64) -> Seed
        ensures { result.start ≡ fold folding.write folding.initial (fed.u64 number) }
    {
        let mut start = FoldHasher::default();
        start.write_u64(number);
        Seed { start }
    }
}

impl BuildHasher for Seed {
    type Hasher = FoldHasher;

    ghost build_hasher = { λ s. s.start };

    fn build_hasher(&self) -> FoldHasher {
        self.start
    }
}
