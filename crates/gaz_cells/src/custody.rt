//! The columns of what became of a number.
ghost use Rattle.std.specs.Prelude.{◌≡◌, IfOk};
ghost use Rattle.gaz_ids.specs.Limits.{last_code, last_hop};
ghost use Rattle.gaz_ids.specs.Numbers.{of_id};
ghost use Rattle.gaz_cells.specs.Columns.{AreInRange};
ghost use Rattle.gaz_cells.specs.Custody.{custody_by, custody_cells, custody_told};

use crate::cells::{Cells, Links};
use crate::id::id_of;
use gaz_ids::{Code, Hop, Uprn};
use gaz_records::Key;
use gaz_views::Custody;
use std::alloc::{AllocError, Global};
use std::marker::Model;

/// The kind of a row that says what became of a number.
pub const CUSTODY: u64 = 92;

/// The columns of what became of a number.
#[derive(Drop)]
pub struct CustodyCells {
    /// Of the kind `CUSTODY`, the number's; `street` is the other custodian's code, and the body is
    /// empty.
    pub cells: Cells,
    /// How often the number had passed on.
    pub hop: u32,
}

impl Model for CustodyCells {
    ghost use Rattle.gaz_cells.specs.Custody.{CustodyValue};

    ghost Value = { CustodyValue };

    ghost view = { λ x. record { cells = x.cells; hop = x.hop } };
}

// Taken or given up, by `live`.
fn custody_by(live: u64, other: Code, hop: Hop) -> Option<Custody>
    ensures { result ≡ custody_by live other hop }
{
    if live == 0 {
        Some(Custody::Released { to: other, hop })
    } else if live == 1 {
        Some(Custody::Adopted { from: other, hop })
    } else {
        None
    }
}

/// What became of a number, of what stands in columns: 0 where it was given up or 1 where it was
/// taken, the other custodian's code, and how often it had passed on, both 1 to 9,999. None where
/// they are no such numbers.
pub fn custody_told(live: u64, other: u64, hop: u64) -> Option<Custody>
    ensures { result ≡ custody_told live (of_id 1 last_code other) (of_id 1 last_hop hop) }
{
    let other = Code::of(other)?;
    let hop = Hop::of(hop)?;
    custody_by(live, other, hop)
}

// The numbers by which it is looked for, and whether the number was taken.
fn links_of(uprn: Uprn, custody: &Custody) -> Links
    ensures links { result ≡ (custody_cells uprn custody.now).cells.links }
    ensures range { AreInRange result }
{
    let (street, live) = match custody {
        Custody::Released { to, .. } => (to.number(), 0),
        Custody::Adopted { from, .. } => (from.number(), 1),
    };
    Links {
        blpu: uprn.number(),
        street,
        lang: 0,
        live,
    }
}

impl CustodyCells {
    /// The columns of what became of a number.
    pub fn of(alloc: Global, uprn: Uprn, custody: &Custody) -> Result<CustodyCells, AllocError>
        ensures cells { IfOk result (λ cells. cells ≡ custody_cells uprn custody.now) }
        ensures range { IfOk result (λ cells. AreInRange cells.cells.links) }
    {
        let id = id_of(alloc, &Key::Blpu(uprn))?;
        Ok(CustodyCells {
            cells: Cells {
                kind: CUSTODY as u32,
                id,
                links: links_of(uprn, custody),
                body: String::new(alloc),
            },
            hop: custody.hop() as u32,
        })
    }
}
