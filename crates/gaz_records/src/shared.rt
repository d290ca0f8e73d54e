//! An item that several hold.
ghost use Rattle.std.specs.Prelude.{◌≡◌, IfOk, option_map};

use crate::item::Item;
use std::alloc::{AllocError, Global};
use std::marker::Model;
use std::ops::Deref;
use std::rc::Rc;

/// An item that several hold: one more takes no memory, and none can change it.
#[derive(Drop)]
pub struct SharedItem {
    item: Rc<Item, Global>,
}

impl Model for SharedItem {
    ghost use Rattle.gaz_records.specs.declared.item.Item.{Item};

    ghost Value = { Item };

    ghost view = { λ s. s.item.value };
}

impl SharedItem {
    /// The item, which is moved to where it can be shared.
    pub fn new(alloc: Global, item: Item) -> Result<SharedItem, AllocError>
        ensures { IfOk result (λ s. s ≡ item) }
    {
        let item = Rc::new(alloc, item)?;
        Ok(SharedItem { item })
    }

    /// This item for one more sharer; a fault where no more of them can be counted.
    pub fn share(&self) -> Result<SharedItem, AllocError>
        ensures { IfOk result (λ s. s ≡ self.now) }
    {
        let item = self.item.clone()?;
        Ok(SharedItem { item })
    }

    /// The item.
    pub fn as_item(&self) -> &Item
        ensures { result.now ≡ self.now }
    {
        self.item.as_ref()
    }
}

/// The item, where there is one.
pub fn item_in(shared: &Option<SharedItem>) -> Option<&Item>
    ensures { option_map (λ i. i.now) result ≡ shared.now }
{
    match shared {
        Some(item) => Some(item.as_item()),
        None => None,
    }
}

impl Deref for SharedItem {
    type Target = Item;

    ghost deref_gives = { λ s x. x ≡ s };

    fn deref(&self) -> &Item
        ensures { result.now ≡ self.now }
    {
        self.as_item()
    }
}
