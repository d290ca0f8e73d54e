//! The BLPU of an adoption, as an item that a keeper can share.
ghost use Rattle.std.specs.Prelude.{◌≡◌, IfOk};
ghost use Rattle.gaz_records.specs.declared.item.Item.TheVariants as item;

use gaz_addressable::Text;
use gaz_records::{Blpu, Item, SharedItem};
use std::alloc::{AllocError, Global};

// A postcode once more. What was read once reads again, so only memory can be wanting.
fn postcode_of(alloc: Global, postcode: &Text<8>) -> Result<Text<8>, AllocError>
    ensures { IfOk result (λ text. text ≡ postcode.now) }
{
    Text::read(alloc, postcode.as_bytes()).map_err(|_| AllocError)
}

/// A BLPU once more, as an item by itself.
pub(crate) fn item_of(alloc: Global, blpu: &Blpu) -> Result<SharedItem, AllocError>
    ensures { IfOk result (λ i. i ≡ item.Blpu blpu.now) }
{
    let postcode = match &blpu.postcode {
        Some(postcode) => Some(postcode_of(alloc, postcode)?),
        None => None,
    };
    let copy = Blpu {
        uprn: blpu.uprn,
        status: blpu.status,
        easting: blpu.easting,
        northing: blpu.northing,
        parent: blpu.parent,
        postcode,
        start: blpu.start,
        end: blpu.end,
    };
    SharedItem::new(alloc, Item::Blpu(copy))
}
