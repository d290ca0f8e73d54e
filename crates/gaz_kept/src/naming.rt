//! Which tables and columns a database has, by their names.
ghost use Rattle.std.specs.Prelude.{◌≡◌, ◌&&◌};
ghost use Rattle.std.specs.List.{list_all, list_any};
ghost use Rattle.sqlite_schema.specs.Names.{same_name};
ghost use Rattle.gaz_tables.specs.Schema.{meta, received, version, version2};
ghost use Rattle.gaz_kept.specs.Opening.{has_all, has_any, has_column, has_name, is_like};
ghost use Rattle.gaz_kept.specs.Opening.{is_owner};
ghost use Rattle.gaz_kept.specs.OpeningFirst.{has_first};

use sqlite_schema::names::same_name;
use sqlite_schema::schema::{Schema, Table, View};

// Whether the view is something that is kept aside with the table of this name.
fn is_of(view: &View, name: &str) -> bool
    ensures { result ≡ is_owner name.now view.now.foreign }
{
    match &view.foreign {
        Some(owner) => same_name(owner.as_slice(), name.as_bytes()),
        None => false,
    }
}

// Whether a table of this name is there.
fn is_there(tables: &[Table], name: &str) -> bool
    ensures { result ≡ list_any (λ t. same_name t.name name.now) tables.now }
{
    tables
        .iter()
        .any(|t| same_name(t.name.as_slice(), name.as_bytes()))
}

// Whether something is kept aside with a table of this name.
fn is_aside(views: &[View], name: &str) -> bool
    ensures { result ≡ list_any (λ v. is_owner name.now v.foreign) views.now }
{
    views.iter().any(|v| is_of(v, name))
}

// Whether a table of this name is there, understood or kept aside.
fn has_name(schema: &Schema, name: &str) -> bool
    ensures { result ≡ has_name name.now schema.now }
{
    is_there(schema.tables.as_slice(), name) | is_aside(schema.views.as_slice(), name)
}

// Whether a table with the name of one of a store's is there.
#[tactic(auto, unfolding(crate::specs::Opening::has_any))]
pub(crate) fn has_any(schema: &Schema) -> bool
    ensures { result ≡ has_any schema.now }
{
    has_name(schema, "version")
        | (has_name(schema, "version2") | (has_name(schema, "received") | has_name(schema, "meta")))
}

// Whether a table has a column of this name.
fn has_column(table: &Table, name: &str) -> bool
    ensures { result ≡ has_column table.now name.now }
{
    table
        .columns
        .as_slice()
        .iter()
        .any(|c| same_name(c.name.as_slice(), name.as_bytes()))
}

// Whether a table has columns of these names.
fn has_columns(table: &Table, names: &[&str]) -> bool
    ensures { result ≡ list_all (λ n. has_column table.now n.now) names.now }
{
    names.iter().all(|n| has_column(table, *n))
}

// Whether a table has this name, and columns of these.
fn is_like(table: &Table, name: &str, columns: &[&str]) -> bool
    ensures { result ≡ (same_name table.now.name name.now
        && list_all (λ n. has_column table.now n.now) columns.now) }
{
    same_name(table.name.as_slice(), name.as_bytes()) & has_columns(table, columns)
}

fn has_version(tables: &[Table]) -> bool
    ensures { result ≡ list_any (is_like version) tables.now }
{
    let columns = [
        "cust", "kind", "id", "blpu", "street", "lang", "live", "born", "gone", "body",
    ];
    tables.iter().any(|t| is_like(t, "version", &columns))
}

fn has_version2(tables: &[Table]) -> bool
    ensures { result ≡ list_any (is_like version2) tables.now }
{
    let columns = [
        "cust", "kind", "id", "blpu", "street", "lang", "live", "born", "gone", "body", "hop",
    ];
    tables.iter().any(|t| is_like(t, "version2", &columns))
}

fn has_received(tables: &[Table]) -> bool
    ensures { result ≡ list_any (is_like received) tables.now }
{
    let columns = ["cust", "volume", "bytes", "state", "place", "rule"];
    tables.iter().any(|t| is_like(t, "received", &columns))
}

fn has_meta(tables: &[Table]) -> bool
    ensures { result ≡ list_any (is_like meta) tables.now }
{
    let columns = ["id", "number", "register"];
    tables.iter().any(|t| is_like(t, "meta", &columns))
}

// Whether each table of a store is there, with its columns, and so is `version`.
#[tactic(auto, unfolding(crate::specs::Opening::has_all))]
pub(crate) fn has_all(schema: &Schema) -> bool
    ensures { result ≡ has_all schema.now }
{
    let tables = schema.tables.as_slice();
    has_version(tables) & (has_version2(tables) & (has_received(tables) & has_meta(tables)))
}

// Whether each table of schema 1 is there, with its columns, and nothing is named `version2`.
#[tactic(auto, unfolding(crate::specs::OpeningFirst::has_first))]
pub(crate) fn has_first(schema: &Schema) -> bool
    ensures { result ≡ has_first schema.now }
{
    let tables = schema.tables.as_slice();
    let alone = !has_name(schema, "version2");
    has_version(tables) & (has_received(tables) & (has_meta(tables) & alone))
}
