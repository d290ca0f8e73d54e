ghost use Rattle.std.specs.Prelude.{◌≡◌, IfOk};
ghost use Rattle.std.specs.List.Sorted.{IsNonDecreasingBy};
ghost use Rattle.std.specs.Option.{ok_or};
ghost use Rattle.std.specs.Result.{result_map_both};
ghost use Rattle.toml.specs.View.{table_view};
ghost use Rattle.gaz_register.specs.Drafts.{ItemsOrMemory, OrMemory};
ghost use Rattle.gaz_register.specs.Reading.{block_from, blocks_from, custodian_from};
ghost use Rattle.gaz_register.specs.Reading.{custodians_from, document, number_from, register_of};

use crate::block::{Block, put_block};
use crate::custodian::{Custodian, put_custodian};
use crate::draft::{CustodianDraft, Pair, drafts_in};
use crate::fault::RegFault;
use crate::name::is_name;
use crate::register::Register;
use gaz_ids::{Code, LAST_CODE, LAST_UPRN, LAST_USRN};
use std::alloc::Global;
use std::str;
use toml::Table;

// The most custodians of a register (our profile).
const MOST_CUSTODIANS: usize = 400;

// The most blocks of one kind that a custodian has (our profile).
const MOST_BLOCKS: usize = 8;

// The table that a TOML text writes.
fn document(alloc: Global, text: &[u8]) -> Result<Table, RegFault>
    ensures { OrMemory (result_map_both (λ t. table_view t) (λ e. e) result)
        (ok_or (document text.now) RegFault.NotToml) }
{
    let Ok(text) = str::from_utf8(text) else {
        return Err(RegFault::NotToml);
    };
    match toml::table_from_str(alloc, text) {
        Ok(table) => Ok(table),
        Err(error) => {
            if error.is_memory() {
                Err(RegFault::Memory)
            } else {
                Err(RegFault::NotToml)
            }
        }
    }
}

// The number, where it is from 1 to the highest.
fn number_from(most: u64, value: i64) -> Option<u64>
    ensures { result ≡ number_from 1 most value }
{
    if value < 1 {
        return None;
    }
    let number = value as u64;
    if number > most { None } else { Some(number) }
}

fn block_from(most: u64, pair: Pair) -> Result<Block, RegFault>
    ensures { result ≡ block_from most pair }
{
    let Some(first) = number_from(most, pair.0) else {
        return Err(RegFault::BadBlock);
    };
    let Some(last) = number_from(most, pair.1) else {
        return Err(RegFault::BadBlock);
    };
    if last < first {
        return Err(RegFault::BadBlock);
    }
    Ok(Block::new(first, last))
}

#[tactic(auto, using(std::proofs::lemmas::Bool::Decides::nat_tests), unfolding(crate::specs::Reading::blocks_from))]
fn blocks_from(alloc: Global, most: u64, pairs: &[Pair]) -> Result<Vec<Block>, RegFault>
    ensures { ItemsOrMemory result (blocks_from most pairs.now) }
{
    if pairs.len() > MOST_BLOCKS {
        return Err(RegFault::BadBlock);
    }
    let mut blocks = Vec::new(alloc);
    for pair in pairs {
        put_block(&mut blocks, block_from(most, *pair)?)?;
    }
    Ok(blocks)
}

#[tactic(auto, using(std::proofs::lemmas::Bool::Decides::nat_tests), unfolding(crate::specs::Reading::custodian_from))]
fn custodian_from(alloc: Global, draft: &CustodianDraft) -> Result<Custodian, RegFault>
    ensures { OrMemory result (custodian_from draft.now) }
{
    let Some(code) = number_from(LAST_CODE, draft.code).and_then(Code::of) else {
        return Err(RegFault::BadCode);
    };
    if !is_name(draft.name) {
        return Err(RegFault::BadName);
    }
    let uprn = blocks_from(alloc, LAST_UPRN, &draft.uprn)?;
    let usrn = blocks_from(alloc, LAST_USRN, &draft.usrn)?;
    let name = String::from_str(alloc, draft.name)?;
    Ok(Custodian::new(code, name, uprn, usrn))
}

#[tactic(auto, unfolding(crate::specs::Reading::custodians_from))]
// The custodians by rising code.
fn custodians_from(alloc: Global, drafts: &[CustodianDraft]) -> Result<Vec<Custodian>, RegFault>
    ensures value { ItemsOrMemory result (custodians_from drafts.now) }
    ensures sorted { IfOk result (λ v. IsNonDecreasingBy (λ c. c.code) v.items) }
{
    let mut custodians = Vec::new(alloc);
    for draft in drafts {
        put_custodian(&mut custodians, custodian_from(alloc, draft)?)?;
    }
    Ok(custodians)
}

impl Register {
    #[tactic(auto, using(std::proofs::lemmas::Bool::Decides::nat_tests), unfolding(crate::specs::Reading::register_of))]
    /// Reads a register from TOML: an array of tables `custodian`, each with exactly `code`,
    /// `name`, `uprn` and `usrn` (our profile). A text that is none gives its first fault in the
    /// order of `RegFault`; docs/register.md lists them.
    pub fn read(alloc: Global, text: &[u8]) -> Result<Register, RegFault>
        ensures { OrMemory result (register_of text.now) }
    {
        let table = document(alloc, text)?;
        let drafts = drafts_in(alloc, &table)?;
        if drafts.len() > MOST_CUSTODIANS {
            return Err(RegFault::TooMany);
        }
        let custodians = custodians_from(alloc, &drafts)?;
        Register::of(alloc, custodians)
    }
}
