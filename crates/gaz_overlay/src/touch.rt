//! What is kept of a key that a judgement has touched, and what is to be written for it.
ghost use Rattle.std.specs.Prelude.{◌≡◌, IfOk};
ghost use Rattle.gaz_overlay.specs.Writings.{writing_of};

use gaz_records::SharedItem;
use gaz_views::share_found;
use std::alloc::AllocError;

/// What the tables have at a key before the volume.
#[derive(Clone, Copy, PartialEq, Eq)]
pub enum Stood {
    /// No row. The key was used all the same where a number was passed on whose BLPU has it.
    NoRow,
    /// Rows that are gone, and no current one.
    Past,
    /// A current row, which was born in this volume.
    Since(u64),
}

/// A key that the volume has touched.
#[derive(Drop)]
pub struct Touch {
    pub stood: Stood,
    /// The item that the volume has put there last, whether it was taken since or not.
    pub last: Option<SharedItem>,
}

/// What is to be written for a key when the volume is kept.
#[derive(Drop)]
pub struct Writing {
    /// The current row is gone with the volume: the one that was born in this volume.
    pub closes: Option<u64>,
    /// The row that is born in the volume.
    pub adds: Option<NewRow>,
}

/// A row that is born in the volume.
#[derive(Drop)]
pub struct NewRow {
    pub item: SharedItem,
    /// Whether it is current. If not it is gone with the volume too, and says only that its key was
    /// used.
    pub current: bool,
}

impl Touch {
    /// What is to be written for the key, where an item stands there now or none.
    pub(crate) fn writing(&self, stands: bool) -> Result<Writing, AllocError>
        ensures { IfOk result (λ w. w ≡ writing_of self.now stands) }
    {
        let adds = match share_found(self.last.as_ref())? {
            Some(item) => Some(NewRow {
                item,
                current: stands,
            }),
            None => None,
        };
        let closes = match self.stood {
            Stood::Since(born) if adds.is_some() || !stands => Some(born),
            _ => None,
        };
        Ok(Writing { closes, adds })
    }
}
