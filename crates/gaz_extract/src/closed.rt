ghost use Rattle.std.specs.Prelude.{◌≡◌, ◌≤◌, ◌<◌, ◌++◌, ◌∷◌, [], ℕ, true, is_some, IfOk, OnOk};
ghost use Rattle.std.specs.List.{cons_option};
ghost use Rattle.gaz_register.specs.Registers.{RegisterValue};
ghost use Rattle.gaz_keeper.specs.Board.{Board, reached};
ghost use Rattle.gaz_extract.specs.Closing.{closed_among, closed_by, closed_from, closed_left};
ghost use Rattle.gaz_extract.specs.Closing.{closed_of, closed_streets};
ghost use Rattle.gaz_extract.specs.Paging.{pages_left};
ghost use Rattle.gaz_extract.specs.Readings.{LooksAtBoard};
ghost use Rattle.gaz_extract.specs.Remembering.{AreRight, Recalls};
ghost use Rattle.gaz_keeper.specs.Telling.{IsNotJudging};

use crate::page::read_page;
use crate::streets::is_on_closed;
use gaz_ids::{Code, Usrn};
use gaz_keeper::{Shelf, ShelfFault};
use gaz_records::{Item, Key, Kind, RecordKey, SharedItem};
use gaz_register::Register;
use std::alloc::{AllocError, Global};
use std::collections::BTreeMap;

/// An approved address of a custodian on a street that another custodian closed.
#[derive(Clone, Copy)]
pub struct Closed {
    pub custodian: Code,
    pub lpi: RecordKey,
    pub usrn: Usrn,
}

// What a walk over the addresses of custodians found, and the streets that were asked for the one
// at hand.
#[derive(Drop)]
struct Walk {
    closed: Vec<Closed>,
    asked: BTreeMap<Usrn, bool>,
}

impl Walk {
    // Forgets the streets that were asked.
    #[tactic(auto, using(crate::proofs::Remembering::nothing_asked))]
    fn forget(&mut self)
        ensures closed { self.new.closed ≡ self.old.closed }
        ensures asked { (board : Board) (register : RegisterValue) (c : ℕ)
            → AreRight board register c self.new.asked.entries }
    {
        self.asked.clear();
    }
}

// What is told of an item.
fn closed_by<K: Shelf>(
    keeper: &mut K,
    register: &Register,
    code: Code,
    item: &Item,
    asked: &mut BTreeMap<Usrn, bool>,
) -> Result<Option<Closed>, ShelfFault>
    requires { IsNotJudging K.seen keeper.old }
    ensures tells { LooksAtBoard K.seen keeper.old keeper.new result
        (λ board x. Recalls board register.now code asked.old.entries asked.new.entries
        (x ≡ closed_by board register.now code item.now)) }
    ensures not_open { IsNotJudging K.seen keeper.new }
{
    let Item::Lpi(lpi) = item else {
        return Ok(None);
    };
    if !is_on_closed(keeper, register, code, lpi, asked)? {
        return Ok(None);
    }
    Ok(Some(Closed {
        custodian: code,
        lpi: lpi.key,
        usrn: lpi.usrn,
    }))
}

// Adds what was found, if anything.
fn add_found(closed: &mut Vec<Closed>, found: Option<Closed>) -> Result<(), AllocError>
    ensures { OnOk result (closed.new.items ≡ closed.old.items ++ cons_option found []) }
{
    if let Some(found) = found {
        closed.push(found)?;
    }
    Ok(())
}

// Adds what is told of an item.
fn add_item<K: Shelf>(
    keeper: &mut K,
    register: &Register,
    code: Code,
    item: &Item,
    walk: &mut Walk,
) -> Result<(), ShelfFault>
    requires { IsNotJudging K.seen keeper.old }
    ensures tells { LooksAtBoard K.seen keeper.old keeper.new result
        (λ board _. Recalls board register.now code walk.old.asked.entries walk.new.asked.entries
        (walk.new.closed.items
        ≡ walk.old.closed.items ++ closed_among board register.now code (item.now ∷ []))) }
    ensures not_open { IsNotJudging K.seen keeper.new }
{
    let found = closed_by(keeper, register, code, item, &mut walk.asked)?;
    add_found(&mut walk.closed, found)?;
    Ok(())
}

// Adds what is told of some items.
fn add_items<K: Shelf>(
    keeper: &mut K,
    register: &Register,
    code: Code,
    items: &[SharedItem],
    walk: &mut Walk,
) -> Result<(), ShelfFault>
    requires { IsNotJudging K.seen keeper.old }
    ensures tells { LooksAtBoard K.seen keeper.old keeper.new result
        (λ board _. Recalls board register.now code walk.old.asked.entries walk.new.asked.entries
        (walk.new.closed.items
        ≡ walk.old.closed.items ++ closed_among board register.now code items.now)) }
    ensures not_open { IsNotJudging K.seen keeper.new }
{
    for item in items {
        add_item(keeper, register, code, item, walk)?;
    }
    Ok(())
}

// Adds what is told of the page after a key, and answers the key after which the next one begins.
fn add_page<K: Shelf>(
    keeper: &mut K,
    register: &Register,
    code: Code,
    volume: u64,
    after: Option<Key>,
    walk: &mut Walk,
) -> Result<Option<Key>, ShelfFault>
    requires { IsNotJudging K.seen keeper.old }
    ensures tells { LooksAtBoard K.seen keeper.old keeper.new result
        (λ board next. volume ≤ reached board code
        → Recalls board register.now code walk.old.asked.entries walk.new.asked.entries
        (walk.new.closed.items ++ closed_left board register.now code volume next
        ≡ walk.old.closed.items ++ closed_from board register.now code volume after)) }
    ensures fewer { is_some after ≡ true
        → IfOk result (λ next. pages_left next < pages_left after) }
    ensures not_open { IsNotJudging K.seen keeper.new }
{
    let page = read_page(keeper, code, volume, Kind::Lpi, after)?;
    add_items(keeper, register, code, page.items.as_slice(), walk)?;
    Ok(page.next)
}

// Adds a custodian's addresses on closed streets.
fn add_custodian<K: Shelf>(
    keeper: &mut K,
    register: &Register,
    code: Code,
    walk: &mut Walk,
) -> Result<(), ShelfFault>
    requires { IsNotJudging K.seen keeper.old }
    ensures tells { LooksAtBoard K.seen keeper.old keeper.new result
        (λ board _. walk.new.closed.items
        ≡ walk.old.closed.items ++ closed_of board register.now code) }
    ensures not_open { IsNotJudging K.seen keeper.new }
{
    walk.forget();
    let volume = keeper.reached(code)?;
    let mut next = add_page(keeper, register, code, volume, None, walk)?;
    'pages: loop {
        if next.is_none() {
            return Ok(());
        }
        next = add_page(keeper, register, code, volume, next, walk)?;
    }
}

/// The approved addresses on streets that closed: each approved LPI in a custodian's last view
/// whose street isn't in that view and has an end date in the last view of the custodian whose
/// block holds it (our profile, docs/extracts.md); by custodian, then by the LPI's key.
pub fn closed_streets<K: Shelf>(
    alloc: Global,
    keeper: &mut K,
    register: &Register,
) -> Result<Vec<Closed>, ShelfFault>
    requires { IsNotJudging K.seen keeper.old }
    ensures { LooksAtBoard K.seen keeper.old keeper.new result
        (λ board closed. closed.items ≡ closed_streets board register.now) }
{
    let mut walk = Walk {
        closed: Vec::new(alloc),
        asked: BTreeMap::new(alloc),
    };
    for custodian in register.custodians() {
        add_custodian(keeper, register, custodian.code(), &mut walk)?;
    }
    let Walk { closed, .. } = walk;
    Ok(closed)
}
