//! The readings of files.
ghost use Rattle.std.specs.Prelude.{◌≡◌, option_map};
ghost use Rattle.std.specs.FinMap as map;
ghost use Rattle.gaz_keeper.specs.Board.{reached};
ghost use Rattle.gaz_keeper.specs.Received.{count_above};

use crate::questions::Question;
use gaz_ids::{Code, Volume};
use gaz_keeper::{Inbox, ShelfFault};

/// The bytes of a file.
#[derive(Drop)]
pub(crate) struct ReceivedOf {
    pub(crate) code: Code,
    pub(crate) volume: Volume,
}

impl Question for ReceivedOf {
    type Answer = Option<Vec<u8>>;

    ghost is_right = { λ q k views bytes.
        option_map (λ b. b.items) bytes ≡ map.get k.files (q.code, q.volume) };

    fn ask<K: Inbox>(&self, keeper: &mut K) -> Result<Option<Vec<u8>>, ShelfFault> {
        keeper.received(self.code, self.volume)
    }
}

/// How many files of a custodian are received and not judged.
#[derive(Drop)]
pub(crate) struct Held {
    pub(crate) code: Code,
}

impl Question for Held {
    type Answer = u64;

    ghost is_right = { λ q k views n. n ≡ count_above k.files q.code (reached k.board q.code) };

    fn ask<K: Inbox>(&self, keeper: &mut K) -> Result<u64, ShelfFault> {
        keeper.held(self.code)
    }
}
