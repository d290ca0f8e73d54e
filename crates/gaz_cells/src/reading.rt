//! The item that the cells of a row say.
ghost use Rattle.std.specs.Prelude.{◌≡◌, ◌⊎◌, Ok, Some};
ghost use Rattle.gaz_records.specs.Items.{item_text};
ghost use Rattle.gaz_records.specs.Keys.{key_of};
ghost use Rattle.gaz_cells.specs.Ids.{id_of};
ghost use Rattle.gaz_cells.specs.Reading.{OrMemory, agreed, disagreement};
ghost use Rattle.gaz_cells.specs.Reading.{kind_numbered, read_cells, unless};

use crate::cells::{Links, links_of};
use crate::fault::CellFault;
use crate::id::id_of;
use gaz_records::{FieldFault, Item, Kind, item_of_text, item_text, key_of};
use std::alloc::Global;
use std::marker::Model;

/// The cells of a row, as they are read.
#[derive(Drop)]
pub struct Row<'a> {
    /// A record identifier: 11, 15, 21, 23 or 24.
    pub kind: u64,
    /// A text that names a key.
    pub id: &'a [u8],
    pub links: Links,
    /// An item's row as `csv` writes it, without a line end.
    pub body: &'a [u8],
}

impl<'a> Model for Row<'a> {
    ghost use Rattle.gaz_cells.specs.Columns.{CellsValue};

    ghost Value = { CellsValue };

    ghost view = { λ x. record {
      kind = x.kind;
      id = x.id.now;
      links = x.links;
      body = x.body.now;
    } };
}

/// The kind of entries with this record identifier, or none.
pub(crate) fn kind_numbered(number: u64) -> Option<Kind>
    ensures { result ≡ kind_numbered number }
{
    if number == 11 {
        Some(Kind::Street)
    } else if number == 15 {
        Some(Kind::Descriptor)
    } else if number == 21 {
        Some(Kind::Blpu)
    } else if number == 23 {
        Some(Kind::Xref)
    } else if number == 24 {
        Some(Kind::Lpi)
    } else {
        None
    }
}

// The item, unless a cell disagrees.
fn unless(item: Item, fault: Option<CellFault>) -> Result<Item, CellFault>
    ensures { result ≡ unless item fault }
{
    match fault {
        Some(fault) => Err(fault),
        None => Ok(item),
    }
}

impl<'a> Row<'a> {
    // The first cell beside the body that isn't the item's own, of which this is the id.
    fn disagreement(&self, item: &Item, id: &[u8]) -> Option<CellFault>
        requires id { id.now ≡ id_of (key_of item.now) }
        requires body { item_text item.now ≡ self.now.body }
        ensures { result ≡ disagreement self.now item.now }
    {
        let links = links_of(item);
        if self.id != id {
            return Some(CellFault::Id);
        }
        if self.links.blpu != links.blpu {
            return Some(CellFault::Blpu);
        }
        if self.links.street != links.street {
            return Some(CellFault::Street);
        }
        if self.links.lang != links.lang {
            return Some(CellFault::Lang);
        }
        if self.links.live != links.live {
            return Some(CellFault::Live);
        }
        None
    }

    // The first cell beside the body that isn't the item's own; `Memory` may come instead.
    fn fault_beside(&self, alloc: Global, item: &Item) -> Option<CellFault>
        requires { item_text item.now ≡ self.now.body }
        ensures { (result ≡ disagreement self.now item.now) ⊎ (result ≡ Some CellFault.Memory) }
    {
        match id_of(alloc, &key_of(item)) {
            Ok(id) => self.disagreement(item, id.as_bytes()),
            Err(_) => Some(CellFault::Memory),
        }
    }

    // The first cell that isn't the item's own; `Memory` may come instead.
    fn fault_in(&self, alloc: Global, item: &Item) -> Option<CellFault>
        ensures { (result ≡ disagreement self.now item.now) ⊎ (result ≡ Some CellFault.Memory) }
    {
        let Ok(body) = item_text(alloc, item) else {
            return Some(CellFault::Memory);
        };
        if self.body != body.as_slice() {
            return Some(CellFault::Body);
        }
        self.fault_beside(alloc, item)
    }

    /// The item whose row is the body, where the other cells are its own.
    pub(crate) fn compared(&self, alloc: Global, item: Item) -> Result<Item, CellFault>
        requires { item_text item ≡ self.now.body }
        ensures { OrMemory result (agreed self.now (Ok item)) }
    {
        let fault = self.fault_beside(alloc, &item);
        unless(item, fault)
    }

    // The item of the body, where all cells are its own.
    fn checked(&self, alloc: Global, item: Item) -> Result<Item, CellFault>
        ensures { OrMemory result (agreed self.now (Ok item)) }
    {
        let fault = self.fault_in(alloc, &item);
        unless(item, fault)
    }

    #[tactic(auto, unfolding(crate::specs::Reading::read_cells))]
    /// The item that the cells say, or the first cell that disagrees; `Memory` may come instead.
    pub(crate) fn item(&self, alloc: Global) -> Result<Item, CellFault>
        ensures { OrMemory result (read_cells self.now) }
    {
        let Some(kind) = kind_numbered(self.kind) else {
            return Err(CellFault::Kind);
        };
        match item_of_text(alloc, kind, self.body) {
            Ok(item) => self.checked(alloc, item),
            Err(FieldFault::Memory) => Err(CellFault::Memory),
            Err(_) => Err(CellFault::Body),
        }
    }
}
