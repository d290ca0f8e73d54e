ghost use Rattle.std.specs.Prelude.{◌≡◌, ◌++◌, ◌⊎◌, ◌↔◌, map, option_map, true, false, IfErr, IfOk};
ghost use Rattle.std.specs.Prelude.{IsTrue, OnOk};
ghost use Rattle.std.specs.List.{find, list_all};
ghost use Rattle.std.specs.List.Sorted.{IsPermutation, IsNonDecreasingBy};
ghost use Rattle.gaz_register.specs.Registers.{is_custodian, is_disjoint};
ghost use Rattle.gaz_register.specs.Indexes.{IsIndex, Rises, blocks_in, holding, holdings_of};
ghost use Rattle.gaz_register.specs.Indexes.{is_in};

use crate::block::Block;
use crate::custodian::Custodian;
use crate::fault::RegFault;
use gaz_ids::Code;
use std::alloc::{AllocError, Global};

/// A kind of number that custodians hold in blocks.
#[derive(Clone, Copy)]
pub(crate) enum Kind {
    Uprn,
    Usrn,
}

/// A block and the custodian whose it is.
#[derive(Clone, Copy)]
pub(crate) struct Holding {
    pub(crate) first: u64,
    pub(crate) last: u64,
    pub(crate) owner: Code,
}

fn own_blocks(custodian: &Custodian, kind: Kind) -> &[Block]
    ensures { result.now ≡ blocks_in kind custodian.now.own }
{
    match kind {
        Kind::Uprn => custodian.uprn(),
        Kind::Usrn => custodian.usrn(),
    }
}

fn add_blocks(holdings: &mut Vec<Holding>, blocks: &[Block], owner: Code) -> Result<(), AllocError>
    ensures { IfOk result (λ _.
        holdings.new.items ≡ holdings.old.items ++ map (holding owner) blocks.now) }
{
    for block in blocks {
        holdings.push(Holding {
            first: block.first(),
            last: block.last(),
            owner,
        })?;
    }
    Ok(())
}

// The blocks of one kind of all custodians, with their owners.
fn all_holdings(
    alloc: Global,
    custodians: &[Custodian],
    kind: Kind,
) -> Result<Vec<Holding>, AllocError>
    ensures { IfOk result (λ v. v.items ≡ holdings_of (blocks_in kind) custodians.now) }
{
    let mut holdings = Vec::new(alloc);
    for custodian in custodians {
        add_blocks(&mut holdings, own_blocks(custodian, kind), custodian.code())?;
    }
    Ok(holdings)
}

// The blocks of one kind of all custodians with their owners, by rising first number.
fn sorted_holdings(
    alloc: Global,
    custodians: &[Custodian],
    kind: Kind,
) -> Result<Vec<Holding>, AllocError>
    ensures same { IfOk result (λ v.
        IsPermutation (holdings_of (blocks_in kind) custodians.now) v.items) }
    ensures sorted { IfOk result (λ v. IsNonDecreasingBy (λ h. h.first) v.items) }
{
    let mut holdings = all_holdings(alloc, custodians, kind)?;
    holdings.sort_unstable_by_key(|holding| holding.first);
    Ok(holdings)
}

// Whether each block ends before the next begins.
fn rises(holdings: &[Holding]) -> bool
    ensures { IsTrue result ↔ Rises holdings.now }
{
    for i in 1..holdings.len() {
        if holdings[i].first <= holdings[i - 1].last {
            return false;
        }
    }
    true
}

/// The blocks of one kind of all custodians with their owners, by rising first number; `Overlap`
/// where a number is in two of them. Sorted blocks overlap only where two neighbours do, so each is
/// compared with the one before alone.
pub(crate) fn index_of(
    alloc: Global,
    custodians: &[Custodian],
    kind: Kind,
) -> Result<Vec<Holding>, RegFault>
    requires { list_all is_custodian custodians.now ≡ true }
    ensures index { IfOk result (λ v. IsIndex (blocks_in kind) custodians.now v.items) }
    ensures disjoint { OnOk result (is_disjoint (blocks_in kind) custodians.now ≡ true) }
    ensures overlap { IfErr result (λ e. (e ≡ RegFault.Memory)
        ⊎ ((e ≡ RegFault.Overlap) × (is_disjoint (blocks_in kind) custodians.now ≡ false))) }
{
    let holdings = sorted_holdings(alloc, custodians, kind)?;
    if !rises(&holdings) {
        return Err(RegFault::Overlap);
    }
    Ok(holdings)
}

/// The owner of the block that holds the number.
pub(crate) fn owner_at(holdings: &[Holding], number: u64) -> Option<Code>
    requires sorted { IsNonDecreasingBy (λ h. h.first) holdings.now }
    requires rises { Rises holdings.now }
    ensures { result ≡ option_map (λ h. h.owner) (find (is_in number) holdings.now) }
{
    let after = holdings.partition_point(|holding| holding.first <= number);
    if after == 0 {
        return None;
    }
    let holding = &holdings[after - 1];
    if number <= holding.last {
        Some(holding.owner)
    } else {
        None
    }
}
