ghost use Rattle.std.specs.Prelude.{◌≡◌, map};
ghost use Rattle.std.specs.Result.{result_map_both};
ghost use Rattle.toml.specs.Data.{as_integer, as_str, as_array};
ghost use Rattle.toml.specs.View.{view, table_view, array_view};
ghost use Rattle.gaz_register.specs.Drafts.{ItemsOrMemory, OrMemory, at_key, pair_of, pairs_of};
ghost use Rattle.gaz_register.specs.Drafts.{draft_in, draft_of, drafts_in, all_good};

use crate::fault::RegFault;
use std::alloc::Global;
use std::marker::Model;
use toml::value::Array;
use toml::{Table, Value};

/// The first and the last number of a block, as the text has them.
pub(crate) type Pair = (i64, i64);

/// A custodian as its table writes it.
#[derive(Drop)]
pub(crate) struct CustodianDraft<'t> {
    pub(crate) code: i64,
    pub(crate) name: &'t str,
    pub(crate) uprn: Vec<Pair>,
    pub(crate) usrn: Vec<Pair>,
}

impl<'t> Model for CustodianDraft<'t> {
    ghost use Rattle.gaz_register.specs.Drafts.{DraftValue};

    ghost Value = { DraftValue };

    ghost view = { λ d. record {
      code = d.code;
      name = d.name.now;
      uprn = d.uprn.items;
      usrn = d.usrn.items;
    } };
}

fn integer_at(table: &Table, key: &str) -> Result<i64, RegFault>
    ensures { result ≡ at_key as_integer key.now (table_view table.now) }
{
    let Some(value) = table.get(key) else {
        return Err(RegFault::Shape);
    };
    value.as_integer().ok_or(RegFault::Shape)
}

fn text_at<'t>(table: &'t Table, key: &str) -> Result<&'t str, RegFault>
    ensures { result_map_both (λ s. s.now) (λ e. e) result
        ≡ at_key as_str key.now (table_view table.now) }
{
    let Some(value) = table.get(key) else {
        return Err(RegFault::Shape);
    };
    value.as_str().ok_or(RegFault::Shape)
}

fn array_at<'t>(table: &'t Table, key: &str) -> Result<&'t Array, RegFault>
    ensures { result_map_both (λ v. array_view v.now) (λ e. e) result
        ≡ at_key as_array key.now (table_view table.now) }
{
    let Some(value) = table.get(key) else {
        return Err(RegFault::Shape);
    };
    value.as_array().ok_or(RegFault::Shape)
}

fn pair_of(value: &Value) -> Result<Pair, RegFault>
    ensures { result ≡ pair_of (view value.now) }
{
    let Some(items) = value.as_array() else {
        return Err(RegFault::Shape);
    };
    if items.len() != 2 {
        return Err(RegFault::Shape);
    }
    let Some(first) = items[0].as_integer() else {
        return Err(RegFault::Shape);
    };
    let Some(last) = items[1].as_integer() else {
        return Err(RegFault::Shape);
    };
    Ok((first, last))
}

#[tactic(auto, using(crate::proofs::Gather::onto_pushed))]
// The items as pairs.
fn pairs_from(alloc: Global, items: &[Value]) -> Result<Vec<Pair>, RegFault>
    ensures { ItemsOrMemory result (all_good (map (λ v. pair_of (view v)) items.now)) }
{
    let mut pairs = Vec::new(alloc);
    for item in items {
        pairs.push(pair_of(item)?)?;
    }
    Ok(pairs)
}

fn pairs_of(alloc: Global, table: &Table, key: &str) -> Result<Vec<Pair>, RegFault>
    ensures { ItemsOrMemory result (pairs_of key.now (table_view table.now)) }
{
    let items = array_at(table, key)?;
    pairs_from(alloc, items)
}

#[tactic(auto, unfolding(crate::specs::Drafts::draft_in))]
fn draft_in<'t>(alloc: Global, table: &'t Table) -> Result<CustodianDraft<'t>, RegFault>
    ensures { OrMemory result (draft_in (table_view table.now)) }
{
    if table.len() != 4 {
        return Err(RegFault::Shape);
    }
    let code = integer_at(table, "code")?;
    let name = text_at(table, "name")?;
    let uprn = pairs_of(alloc, table, "uprn")?;
    let usrn = pairs_of(alloc, table, "usrn")?;
    Ok(CustodianDraft {
        code,
        name,
        uprn,
        usrn,
    })
}

fn draft_of<'t>(alloc: Global, value: &'t Value) -> Result<CustodianDraft<'t>, RegFault>
    ensures { OrMemory result (draft_of (view value.now)) }
{
    match value.as_table() {
        Some(table) => draft_in(alloc, table),
        None => Err(RegFault::Shape),
    }
}

#[tactic(auto, using(crate::proofs::Gather::onto_pushed))]
// The items as custodians.
fn drafts_from<'t>(alloc: Global, items: &'t [Value]) -> Result<Vec<CustodianDraft<'t>>, RegFault>
    ensures { ItemsOrMemory result (all_good (map (λ v. draft_of (view v)) items.now)) }
{
    let mut drafts = Vec::new(alloc);
    for item in items {
        drafts.push(draft_of(alloc, item)?)?;
    }
    Ok(drafts)
}

#[tactic(auto, unfolding(crate::specs::Drafts::drafts_in))]
/// The custodians of a document as their tables write them, in the order of the text.
pub(crate) fn drafts_in<'t>(
    alloc: Global,
    table: &'t Table,
) -> Result<Vec<CustodianDraft<'t>>, RegFault>
    ensures { ItemsOrMemory result (drafts_in (table_view table.now)) }
{
    if table.len() != 1 {
        return Err(RegFault::Shape);
    }
    let items = array_at(table, "custodian")?;
    if items.is_empty() {
        return Err(RegFault::Shape);
    }
    drafts_from(alloc, items)
}
