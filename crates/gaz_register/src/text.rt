ghost use Rattle.std.specs.Prelude.{◌≡◌, IfOk};
ghost use Rattle.std.specs.String.{string_bytes};
ghost use Rattle.gaz_rows.specs.Rows.{line_of};
ghost use Rattle.gaz_register.specs.Texts.{blocks_text, register_text, row_of};

use crate::block::Block;
use crate::custodian::Custodian;
use crate::register::Register;
use gaz_rows::write_row;
use std::alloc::{AllocError, Global};
use std::fmt::Write;

// The blocks as `first-last`, joined by one space.
fn blocks_text(alloc: Global, blocks: &[Block]) -> Result<String, AllocError>
    ensures { IfOk result (λ t. string_bytes t ≡ blocks_text blocks.now) }
{
    let Some((first, rest)) = blocks.split_first() else {
        return Ok(String::new(alloc));
    };
    let mut text = format!(in alloc; "{first}")?;
    for block in rest {
        write!(text, " {block}")?;
    }
    Ok(text)
}

// The row of a custodian, without a line end.
fn row_text(alloc: Global, custodian: &Custodian) -> Result<Vec<u8>, AllocError>
    ensures { IfOk result (λ v. v.items ≡ line_of (row_of custodian.now)) }
{
    let code = format!(in alloc; "{}", custodian.code())?;
    let uprn = blocks_text(alloc, custodian.uprn())?;
    let usrn = blocks_text(alloc, custodian.usrn())?;
    let fields = [
        code.as_bytes(),
        custodian.name().as_bytes(),
        uprn.as_bytes(),
        usrn.as_bytes(),
    ];
    write_row(alloc, &fields)
}

// The rows of the custodians, each with its line end.
fn rows_text(alloc: Global, custodians: &[Custodian]) -> Result<Vec<u8>, AllocError>
    ensures { IfOk result (λ v. v.items ≡ register_text custodians.now) }
{
    let mut text = Vec::new(alloc);
    for custodian in custodians {
        let row = row_text(alloc, custodian)?;
        text.extend_from_slice(&row)?;
        text.push(b'\n')?;
    }
    Ok(text)
}

impl Register {
    /// The canonical text: a row of CSV for each custodian by rising code, ended by LF, with the
    /// code, the name, the blocks of UPRNs and the blocks of USRNs. Two registers with the same
    /// text are the same.
    pub fn text(&self, alloc: Global) -> Result<String, AllocError>
        ensures { IfOk result (λ t. string_bytes t ≡ register_text self.now) }
    {
        let text = rows_text(alloc, self.custodians())?;
        match String::from_utf8(text) {
            Ok(text) => Ok(text),
            Err(_) => unreachable!(),
        }
    }
}
