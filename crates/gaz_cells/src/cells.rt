//! The columns of an item.
ghost use Rattle.std.specs.Prelude.{◌≡◌, ◌≤◌, IfOk, Ok, true};
ghost use Rattle.gaz_ids.specs.Limits.{last_uprn};
ghost use Rattle.gaz_records.specs.Items.{is_entry};
ghost use Rattle.gaz_cells.specs.Columns.{AreInRange, cells_of, links_of, live_number};
ghost use Rattle.gaz_cells.specs.Columns.{parent_number};
ghost use Rattle.gaz_cells.specs.Reading.{read_cells};

use crate::id::id_of;
use crate::text::as_text;
use gaz_ids::{Status, Uprn};
use gaz_records::{Item, item_text, key_of};
use std::alloc::{AllocError, Global};
use std::marker::Model;

/// The numbers by which items are looked for in tables. Each is 0 where an item has none.
#[derive(Clone, Copy)]
pub struct Links {
    /// The UPRN of a cross reference or an LPI; of a BLPU that of which it is a part.
    pub blpu: u64,
    /// The USRN of a street, a descriptor or an LPI.
    pub street: u64,
    /// The language of a descriptor or an LPI: 1 for `ENG`, 2 for `CYM`.
    pub lang: u8,
    /// 1 for an approved LPI.
    pub live: u8,
}

impl Model for Links {
    ghost use Rattle.gaz_cells.specs.Columns.{LinksValue};

    ghost Value = { LinksValue };

    ghost view = { λ x. record { blpu = x.blpu; street = x.street; lang = x.lang; live = x.live } };

    ghost inverse = { λ x. record {
      blpu = x.blpu;
      street = x.street;
      lang = x.lang;
      live = x.live;
    } };
}

/// The columns of an item.
#[derive(Drop)]
pub struct Cells {
    /// The record identifier of the kind, as `Kind::number` gives it; `CUSTODY` in `CustodyCells`.
    pub kind: u32,
    /// The text that names the key.
    pub id: String,
    pub links: Links,
    /// The item's row as `csv` writes it, without a line end; empty in `CustodyCells`.
    pub body: String,
}

impl Model for Cells {
    ghost use Rattle.std.specs.String.{string_bytes};
    ghost use Rattle.gaz_cells.specs.Columns.{CellsValue};

    ghost Value = { CellsValue };

    ghost view = { λ x. record {
      kind = x.kind;
      id = string_bytes x.id;
      links = x.links;
      body = string_bytes x.body;
    } };
}

// The number of the property of which another is a part.
fn parent_number(parent: Option<Uprn>) -> u64
    ensures value { result ≡ parent_number parent }
    ensures range { result ≤ last_uprn }
{
    match parent {
        Some(uprn) => uprn.number(),
        None => 0,
    }
}

// Whether an LPI of this status is approved.
fn live_number(status: Status) -> u8
    ensures { result ≡ live_number status }
{
    match status {
        Status::Approved => 1,
        Status::Alternative | Status::Provisional | Status::Historical => 0,
    }
}

/// The numbers by which an item is looked for.
pub(crate) fn links_of(item: &Item) -> Links
    ensures links { result ≡ links_of item.now }
    ensures range { AreInRange result }
{
    match item {
        Item::Street(x) => Links {
            blpu: 0,
            street: x.usrn.number(),
            lang: 0,
            live: 0,
        },
        Item::Descriptor(x) => Links {
            blpu: 0,
            street: x.usrn.number(),
            lang: x.lang.number(),
            live: 0,
        },
        Item::Blpu(x) => Links {
            blpu: parent_number(x.parent),
            street: 0,
            lang: 0,
            live: 0,
        },
        Item::Xref(x) => Links {
            blpu: x.uprn.number(),
            street: 0,
            lang: 0,
            live: 0,
        },
        Item::Lpi(x) => Links {
            blpu: x.uprn.number(),
            street: x.usrn.number(),
            lang: x.lang.number(),
            live: live_number(x.status),
        },
        Item::Release(_) | Item::Adopt(_) => Links {
            blpu: 0,
            street: 0,
            lang: 0,
            live: 0,
        },
    }
}

impl Cells {
    #[tactic(auto, using(crate::proofs::CellsBack::cells_back))]
    /// The columns of an item. Read as a row those of an entry say it again.
    pub fn of(alloc: Global, item: &Item) -> Result<Cells, AllocError>
        ensures cells { IfOk result (λ cells. cells ≡ cells_of item.now) }
        ensures range { IfOk result (λ cells. AreInRange cells.links) }
        ensures reads_back { is_entry item.now ≡ true
            → read_cells (cells_of item.now) ≡ Ok item.now }
    {
        item.known();
        let kind = item.kind().number() as u32;
        let body = item_text(alloc, item)?;
        let id = id_of(alloc, &key_of(item))?;
        let links = links_of(item);
        Ok(Cells {
            kind,
            id,
            links,
            body: as_text(body),
        })
    }
}
