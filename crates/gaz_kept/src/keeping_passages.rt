//! What became of the numbers that a judgement passed on, written as a custodian's next volume.
ghost use Rattle.std.specs.Prelude.{◌≡◌, ◌&&◌, true};
ghost use Rattle.gaz_ids.specs.Limits.{last_code, last_hop};
ghost use Rattle.gaz_ids.specs.Numbers.{in_range};
ghost use Rattle.gaz_records.specs.Blpus.{is_uprn};
ghost use Rattle.gaz_cells.specs.Custody.{is_custody};
ghost use Rattle.gaz_overlay.specs.Writings.{passage_at};
ghost use Rattle.gaz_tables.specs.Stores.{StaysInside};
ghost use Rattle.gaz_kept.specs.Keeping.{AddsPassage, EndsRow, WritesNumber, WritesNumbers};
ghost use Rattle.gaz_kept.specs.Keeping.{WritesVersions};

use crate::keeping_keys::{code_known, end_born, insert_cells};
use gaz_cells::CUSTODY;
use gaz_ids::{Code, Hop, Uprn, Volume};
use gaz_overlay::Overlay;
use gaz_records::Key;
use gaz_row_items::newest::NEVER;
use gaz_row_items::row_cells::passage_cells;
use gaz_views::Custody;
use sqlite::{Alter, Error, Transaction};
use std::alloc::Global;

// A number is one of a property.
#[tactic(auto, using(std::proofs::lemmas::Bool::Decides::nat_tests))]
fn number_known(uprn: Uprn)
    ensures { is_uprn uprn ≡ true }
{
    let _number = uprn.number();
}

// A code and a hop are such.
#[tactic(auto, using(std::proofs::lemmas::Bool::Decides::nat_tests))]
fn pair_known(code: Code, hop: Hop)
    ensures { (in_range 1 last_code code && in_range 1 last_hop hop) ≡ true }
{
    let _code = code.number();
    let _hop = hop.number();
}

// What became of a number names a code and a hop.
fn custody_known(custody: &Custody)
    ensures { is_custody custody.now ≡ true }
{
    match custody {
        Custody::Released { to, hop } => pair_known(*to, *hop),
        Custody::Adopted { from, hop } => pair_known(*from, *hop),
    }
}

// Adds the current row of what became of a number, within a transaction.
fn add_passage<S: Alter>(
    tx: &mut Transaction<'_, S>,
    alloc: Global,
    code: Code,
    volume: Volume,
    uprn: Uprn,
    custody: &Custody,
) -> Result<(), Error>
    ensures same_reference { tx.new.conn.ghost_name ≡ tx.old.conn.ghost_name }
    ensures added { WritesVersions S.Store tx.old.conn.now tx.new.conn.now result
        (AddsPassage code volume uprn custody.now) }
    ensures inside { StaysInside S.Store tx.old.conn.now tx.new.conn.now result }
{
    code_known(code);
    number_known(uprn);
    custody_known(custody);
    let cells = passage_cells(alloc, uprn, custody)?;
    insert_cells(tx, code, volume, NEVER as u32, cells)
}

// Ends the row of a number that was born in a volume, where one is to end, within a transaction.
fn end_row<S: Alter>(
    tx: &mut Transaction<'_, S>,
    alloc: Global,
    code: Code,
    volume: Volume,
    uprn: Uprn,
    closes: Option<u64>,
) -> Result<(), Error>
    ensures same_reference { tx.new.conn.ghost_name ≡ tx.old.conn.ghost_name }
    ensures ended { WritesVersions S.Store tx.old.conn.now tx.new.conn.now result
        (EndsRow code volume uprn closes) }
    ensures inside { StaysInside S.Store tx.old.conn.now tx.new.conn.now result }
{
    match closes {
        Some(born) => {
            let key = Key::Blpu(uprn);
            end_born(tx, alloc, code, volume, CUSTODY as u32, &key, born)
        }
        None => Ok(()),
    }
}

// Writes what became of a number, where it was passed on, within a transaction.
fn write_number<S: Alter>(
    tx: &mut Transaction<'_, S>,
    alloc: Global,
    code: Code,
    volume: Volume,
    uprn: Uprn,
    changes: &Overlay,
) -> Result<(), Error>
    ensures same_reference { tx.new.conn.ghost_name ≡ tx.old.conn.ghost_name }
    ensures written { WritesVersions S.Store tx.old.conn.now tx.new.conn.now result
        (WritesNumber code volume uprn (passage_at changes.now uprn)) }
    ensures inside { StaysInside S.Store tx.old.conn.now tx.new.conn.now result }
{
    let Some(passage) = changes.passage(uprn) else {
        return Ok(());
    };
    end_row(tx, alloc, code, volume, uprn, passage.closes)?;
    add_passage(tx, alloc, code, volume, uprn, &passage.custody)
}

/// Writes what became of these numbers, one after another, within a transaction.
pub(crate) fn write_numbers<S: Alter>(
    tx: &mut Transaction<'_, S>,
    alloc: Global,
    code: Code,
    volume: Volume,
    numbers: &[Uprn],
    changes: &Overlay,
) -> Result<(), Error>
    ensures same_reference { tx.new.conn.ghost_name ≡ tx.old.conn.ghost_name }
    ensures written { WritesVersions S.Store tx.old.conn.now tx.new.conn.now result
        (WritesNumbers code volume changes.now numbers.now) }
    ensures inside { StaysInside S.Store tx.old.conn.now tx.new.conn.now result }
{
    for uprn in numbers {
        write_number(tx, alloc, code, volume, *uprn, changes)?;
    }
    Ok(())
}
