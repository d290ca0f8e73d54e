ghost use Rattle.std.specs.Prelude.{◌≡◌, ◌≤◌, ◌++◌, length, map, OnOk, IfOk};
ghost use Rattle.gaz_rows.specs.Rows.{lines_of};
ghost use Rattle.gaz_changefile.specs.Allowed.{AreAllowed};
ghost use Rattle.gaz_changefile.specs.Files.{AreBases, ArePlaced};
ghost use Rattle.gaz_changefile.specs.Reading.{Good, reading};
ghost use Rattle.gaz_changefile.specs.Writing.{basis_row, change_row, change_rows, file_text};
ghost use Rattle.gaz_changefile.specs.Writing.{AddsRow, header_row, profile_for, trailer_row};

use crate::change::{Basis, Change};
use crate::file::ChangeFile;
use crate::numbers::{ENTRIES, PASSINGS};
use gaz_ids::{Code, MOST_CHANGES, Volume};
use gaz_records::{Day, write_item};
use gaz_rows::write_row;
use itoa::Buffer;
use std::alloc::{AllocError, Global};

// Adds a record of two fields or more and its line end.
fn add_row(alloc: Global, out: &mut Vec<u8>, fields: &[&[u8]]) -> Result<(), AllocError>
    requires { 2 ≤ length fields.now }
    ensures { OnOk result (AddsRow out.old.items out.new.items (map (λ f. f.now) fields.now)) }
{
    let row = write_row(alloc, fields)?;
    out.extend_from_slice(&row)?;
    out.push(b'\n')?;
    Ok(())
}

// The profile of a file with these changes: the least that has records of all of them.
fn profile_for(changes: &[Change]) -> u64
    ensures { result ≡ profile_for changes.now }
{
    for change in changes {
        if !change.item.is_entry() {
            return PASSINGS;
        }
    }
    ENTRIES
}

fn add_header(
    alloc: Global,
    out: &mut Vec<u8>,
    profile: u64,
    custodian: u64,
    volume: u64,
    date: &Day,
) -> Result<(), AllocError>
    ensures { OnOk result
        (AddsRow out.old.items out.new.items (header_row profile custodian volume date.now)) }
{
    let mut profile_digits = Buffer::new();
    let mut code_digits = Buffer::new();
    let mut volume_digits = Buffer::new();
    let fields: [&[u8]; 5] = [
        b"10",
        profile_digits.format(profile).as_bytes(),
        code_digits.format(custodian).as_bytes(),
        volume_digits.format(volume).as_bytes(),
        &date.digits(),
    ];
    add_row(alloc, out, &fields)
}

fn add_basis(alloc: Global, out: &mut Vec<u8>, basis: &Basis) -> Result<(), AllocError>
    ensures { OnOk result (AddsRow out.old.items out.new.items (basis_row basis.now)) }
{
    let mut custodian = Buffer::new();
    let mut volume = Buffer::new();
    let fields: [&[u8]; 3] = [
        b"90",
        custodian.format(basis.custodian.number()).as_bytes(),
        volume.format(basis.volume.number()).as_bytes(),
    ];
    add_row(alloc, out, &fields)
}

// Adds a change with its order.
fn add_change(
    alloc: Global,
    out: &mut Vec<u8>,
    order: u64,
    change: &Change,
) -> Result<(), AllocError>
    ensures { OnOk result (AddsRow out.old.items out.new.items (change_row (order, change.now))) }
{
    let mut digits = Buffer::new();
    let fields: [&[u8]; 3] = [
        change.item.kind().text(),
        change.action.text(),
        digits.format(order).as_bytes(),
    ];
    let start = write_row(alloc, &fields)?;
    out.extend_from_slice(&start)?;
    out.push(b',')?;
    write_item(&change.item, out)?;
    out.push(b'\n')?;
    Ok(())
}

// Adds the trailer behind these changes.
fn add_trailer(alloc: Global, out: &mut Vec<u8>, changes: &[Change]) -> Result<(), AllocError>
    ensures { OnOk result (AddsRow out.old.items out.new.items (trailer_row (length changes.now))) }
{
    let mut digits = Buffer::new();
    let fields: [&[u8]; 2] = [b"99", digits.format(changes.len()).as_bytes()];
    add_row(alloc, out, &fields)
}

fn add_bases(alloc: Global, out: &mut Vec<u8>, bases: &[Basis]) -> Result<(), AllocError>
    ensures { OnOk result (out.new.items ≡ out.old.items ++ lines_of (map basis_row bases.now)) }
{
    for basis in bases {
        add_basis(alloc, out, basis)?;
    }
    Ok(())
}

// Adds the changes with the orders 1, 2, 3 and so on.
fn add_changes(alloc: Global, out: &mut Vec<u8>, changes: &[Change]) -> Result<(), AllocError>
    requires { length changes.now ≤ MOST_CHANGES }
    ensures { OnOk result (out.new.items ≡ out.old.items ++ lines_of (change_rows 1 changes.now)) }
{
    for (i, change) in changes.iter().enumerate() {
        add_change(alloc, out, i as u64 + 1, change)?;
    }
    Ok(())
}

/// Writes the file of a custodian and volume: canonical bytes, which `read_file` reads back as the
/// same file.
///
/// A file has at most 16 bases by rising custodian, none the own, and at most 5,000 changes, each
/// placed by the number of its record: change i, from 1, at i + 1 + the number of bases. Each
/// release and adoption is an insertion, and names another custodian; with one of them the profile
/// is 2.
pub fn write_file(
    alloc: Global,
    file: &ChangeFile,
    code: Code,
    volume: Volume,
) -> Result<Vec<u8>, AllocError>
    requires bases { AreBases code file.now.bases }
    requires changes { ArePlaced file.now.bases file.now.changes }
    requires allowed { AreAllowed code file.now.changes }
    ensures text { IfOk result (λ t. t.items ≡ file_text code volume file.now) }
    ensures reads_back { IfOk result (λ t. reading t.items code volume ≡ Good file.now) }
{
    file.known();
    let mut out = Vec::new(alloc);
    let profile = profile_for(&file.changes);
    add_header(
        alloc,
        &mut out,
        profile,
        code.number(),
        volume.number(),
        &file.date,
    )?;
    add_bases(alloc, &mut out, &file.bases)?;
    add_changes(alloc, &mut out, &file.changes)?;
    add_trailer(alloc, &mut out, &file.changes)?;
    Ok(out)
}
