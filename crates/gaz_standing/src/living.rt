//! What stood at a key from a volume on, and until another.
ghost use Rattle.std.specs.Prelude.{◌≡◌, ◌↔◌, IsTrue, OnOk, OnErr};
ghost use Rattle.gaz_histories.specs.Histories.{IsOverBy};
ghost use Rattle.gaz_standing.specs.KeyHistories.{versions_at};
ghost use Rattle.gaz_standing.specs.Changing.{LivesAt};

use crate::histories::Histories;
use gaz_histories::History;
use gaz_records::{Key, SharedItem, SortKey};
use std::alloc::AllocError;

impl Histories {
    /// Whether nothing stands at a key after a volume, nor after any later one.
    pub fn is_over_by(&self, volume: u64, key: &Key) -> bool
        ensures { IsTrue result ↔ IsOverBy (versions_at self.now key.now) volume }
    {
        match self.by_key.get(&SortKey::of(key)) {
            Some(history) => history.is_over_by(volume),
            None => true,
        }
    }

    /// An item stands at a key from a volume on, and until another where one is given. What began
    /// there at the volume or after it is forgotten. Where memory runs out, nothing changes.
    pub fn live(
        &mut self,
        born: u64,
        gone: Option<u64>,
        key: &Key,
        item: SharedItem,
    ) -> Result<(), AllocError>
        ensures ok { OnOk result (LivesAt self.old self.new key.now born gone item) }
        ensures err { OnErr result (self.new ≡ self.old) }
    {
        let key = SortKey::of(key);
        if let Some(history) = self.by_key.get_mut(&key) {
            return Ok(history.live(born, gone, item)?);
        }
        let mut history = History::new(self.alloc);
        history.live(born, gone, item)?;
        self.order.note(key)?;
        self.by_key.insert(key, history)?;
        Ok(())
    }
}
