ghost use Rattle.std.specs.Prelude.{◌≡◌, ◌≤◌, ◌++◌, drop, IfOk, Ok, OnErr, OnOk, true};
ghost use Rattle.csv.specs.Records.{fields_of};
ghost use Rattle.gaz_fields.specs.Fields.{OrMemory};
ghost use Rattle.gaz_fields.specs.Appending.{Grows};
ghost use Rattle.gaz_records.specs.Items.{is_entry, is_item, item_of_text, item_text, kind_of};
ghost use Rattle.gaz_records.specs.Items.{read_item};

use crate::adopt::Adopt;
use crate::blpu::Blpu;
use crate::descriptor::Descriptor;
use crate::lpi::Lpi;
use crate::release::Release;
use crate::street::Street;
use crate::xref::Xref;
use csv::ByteRecord;
use gaz_fields::{FieldFault, Fields};
use gaz_rows::read_row;
use std::alloc::{AllocError, Global};

/// The kind of an item. The five below 91 are entries: items of them stand in views.
#[derive(Clone, Copy)]
pub enum Kind {
    /// Record identifier 11.
    Street,
    /// Record identifier 15.
    Descriptor,
    /// Record identifier 21.
    Blpu,
    /// Record identifier 23.
    Xref,
    /// Record identifier 24.
    Lpi,
    /// Record identifier 91.
    Release,
    /// Record identifier 92.
    Adopt,
}

/// An item of a custodian's gazetteer, or a record by which a property passes from one custodian
/// to another.
#[derive(Drop)]
pub enum Item {
    Street(Street),
    Descriptor(Descriptor),
    Blpu(Blpu),
    Xref(Xref),
    Lpi(Lpi),
    Release(Release),
    Adopt(Adopt),
}

// A view shares one of these for each record of a gazetteer, so each is small.
const _: () = prove!(size_of::<Item>() == 136);

// The item of a kind that fields say.
fn said(alloc: Global, kind: Kind, fields: &Fields) -> Result<Item, FieldFault>
    ensures { OrMemory result (read_item kind fields.now) }
{
    match kind {
        Kind::Street => Ok(Item::Street(Street::read(fields)?)),
        Kind::Descriptor => Ok(Item::Descriptor(Descriptor::read(alloc, fields)?)),
        Kind::Blpu => Ok(Item::Blpu(Blpu::read(alloc, fields)?)),
        Kind::Xref => Ok(Item::Xref(Xref::read(alloc, fields)?)),
        Kind::Lpi => Ok(Item::Lpi(Lpi::read(alloc, fields)?)),
        Kind::Release => Ok(Item::Release(Release::read(fields)?)),
        Kind::Adopt => Ok(Item::Adopt(Adopt::read(alloc, fields)?)),
    }
}

/// The item of a kind that the fields of a record behind the first `skip` ones say.
///
/// `Count` where there are too few or too many of them, else `Form` with the first field, from 1,
/// of a wrong form; an object counts as its first field. `Memory` may come in place of either.
pub fn read_item(
    alloc: Global,
    kind: Kind,
    row: &ByteRecord,
    skip: usize,
) -> Result<Item, FieldFault>
    requires { skip ≤ 3 }
    ensures { OrMemory result (read_item kind (drop skip (fields_of row.now))) }
{
    said(alloc, kind, &Fields::behind(row, skip))
}

/// The item of a kind that a text says which is one row: `Count` where it isn't one row, else as
/// `read_item`.
pub fn item_of_text(alloc: Global, kind: Kind, text: &[u8]) -> Result<Item, FieldFault>
    ensures { OrMemory result (item_of_text kind text.now) }
{
    match read_row(alloc, text) {
        Ok(Some(row)) => read_item(alloc, kind, &row, 0),
        Ok(None) => Err(FieldFault::Count),
        Err(_) => Err(FieldFault::Memory),
    }
}

impl Item {
    /// The kind of the item.
    pub fn kind(&self) -> Kind
        ensures { result ≡ kind_of self.now }
    {
        match self {
            Item::Street(_) => Kind::Street,
            Item::Descriptor(_) => Kind::Descriptor,
            Item::Blpu(_) => Kind::Blpu,
            Item::Xref(_) => Kind::Xref,
            Item::Lpi(_) => Kind::Lpi,
            Item::Release(_) => Kind::Release,
            Item::Adopt(_) => Kind::Adopt,
        }
    }

    /// Whether the item is one of those that stand in views.
    pub fn is_entry(&self) -> bool
        ensures { result ≡ is_entry self.now }
    {
        self.kind().is_entry()
    }

    /// What each item holds, for callers, who see its value alone.
    pub fn known(&self)
        ensures { is_item self.now ≡ true }
    {
        match self {
            Item::Street(street) => street.known(),
            Item::Descriptor(descriptor) => descriptor.known(),
            Item::Blpu(blpu) => blpu.known(),
            Item::Xref(xref) => xref.known(),
            Item::Lpi(lpi) => lpi.known(),
            Item::Release(release) => release.known(),
            Item::Adopt(adopt) => adopt.known(),
        }
    }
}

#[tactic(auto, using(gaz_fields::proofs::Growing::growing))]
// Adds the row of the item's fields. After want of memory a part of it may be there.
fn add_row(item: &Item, out: &mut Vec<u8>) -> Result<(), AllocError>
    ensures row { OnOk result (out.new.items ≡ out.old.items ++ item_text item.now) }
    ensures kept { Grows out.old.items out.new.items }
{
    match item {
        Item::Street(street) => street.write(out),
        Item::Descriptor(descriptor) => descriptor.write(out),
        Item::Blpu(blpu) => blpu.write(out),
        Item::Xref(xref) => xref.write(out),
        Item::Lpi(lpi) => lpi.write(out),
        Item::Release(release) => release.write(out),
        Item::Adopt(adopt) => adopt.write(out),
    }
}

#[tactic(auto, using(gaz_fields::proofs::Growing::growing))]
/// Adds the row of the item's fields as `csv` writes it, without a line end. After want of memory
/// `out` is as it was.
pub fn write_item(item: &Item, out: &mut Vec<u8>) -> Result<(), AllocError>
    ensures row { OnOk result (out.new.items ≡ out.old.items ++ item_text item.now) }
    ensures undone { OnErr result (out.new.items ≡ out.old.items) }
{
    let was = out.len();
    if let Err(fault) = add_row(item, out) {
        out.truncate(was);
        return Err(fault);
    }
    Ok(())
}

/// The row of the item's fields as `csv` writes it, without a line end. It reads back as the same
/// item.
pub fn item_text(alloc: Global, item: &Item) -> Result<Vec<u8>, AllocError>
    ensures text { IfOk result (λ t. t.items ≡ item_text item.now) }
    ensures reads_back { item_of_text (kind_of item.now) (item_text item.now) ≡ Ok item.now }
{
    item.known();
    let mut out = Vec::new(alloc);
    write_item(item, &mut out)?;
    Ok(out)
}
