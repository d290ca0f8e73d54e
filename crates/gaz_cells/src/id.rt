//! The texts by which tables name the keys of a kind.
ghost use Rattle.std.specs.Prelude.{◌≡◌, ◌++◌, IfOk, OnOk, true};
ghost use Rattle.std.specs.String.{string_bytes};
ghost use Rattle.gaz_cells.specs.Digits.{digits_in};
ghost use Rattle.gaz_cells.specs.Ids.{id_of, is_key, key_named, usrn_in, uprn_in};

use crate::text::as_text;
use gaz_ids::{Lang, Uprn, Usrn};
use gaz_records::{Key, Kind, Label};
use std::alloc::{AllocError, Global};

// The digits of a USRN in the name of a key.
const USRN_DIGITS: usize = 8;

// The digits of a UPRN in the name of a key.
const UPRN_DIGITS: usize = 12;

// The bytes of a street and a language in the name of a key.
const NAME_BYTES: usize = 11;

// Adds the last `width` digits of the number.
fn add_digits(out: &mut Vec<u8>, width: usize, number: u64) -> Result<(), AllocError>
    ensures { OnOk result (out.new.items ≡ out.old.items ++ digits_in width number) }
{
    if width == 0 {
        return Ok(());
    }
    add_digits(out, width - 1, number / 10)?;
    out.push(b'0' + (number % 10) as u8)?;
    Ok(())
}

// The bytes of the text that names the key.
fn id_bytes(alloc: Global, key: &Key) -> Result<Vec<u8>, AllocError>
    ensures id { IfOk result (λ id. id.items ≡ id_of key.now) }
    ensures form { is_key key.now ≡ true }
{
    let mut out = Vec::new(alloc);
    match key {
        Key::Street(usrn) => add_digits(&mut out, USRN_DIGITS, usrn.number())?,
        Key::Descriptor(usrn, lang) => {
            add_digits(&mut out, USRN_DIGITS, usrn.number())?;
            out.extend_from_slice(lang.text())?;
        }
        Key::Blpu(uprn) => add_digits(&mut out, UPRN_DIGITS, uprn.number())?,
        Key::Xref(label) | Key::Lpi(label) => out.extend_from_slice(label.as_bytes())?,
    }
    Ok(out)
}

/// The text by which tables name the key among those of its kind.
///
/// A USRN in 8 digits, that and its language, a UPRN in 12 digits, or the key itself. Texts of a
/// kind are in the order of keys.
pub fn id_of(alloc: Global, key: &Key) -> Result<String, AllocError>
    ensures id { IfOk result (λ id. string_bytes id ≡ id_of key.now) }
    ensures form { is_key key.now ≡ true }
{
    let id = id_bytes(alloc, key)?;
    Ok(as_text(id))
}

// The USRN that just 8 digits write.
fn usrn_in(text: &[u8]) -> Option<Usrn>
    ensures { result ≡ usrn_in text.now }
{
    if text.len() != USRN_DIGITS {
        return None;
    }
    Usrn::read(text).ok()
}

// The UPRN that just 12 digits write.
pub(crate) fn uprn_in(text: &[u8]) -> Option<Uprn>
    ensures { result ≡ uprn_in text.now }
{
    if text.len() != UPRN_DIGITS {
        return None;
    }
    Uprn::read(text).ok()
}

// The street's name in a language that a text names.
fn name_in(text: &[u8]) -> Option<Key>
    ensures { result ≡ key_named Kind.Descriptor text.now }
{
    if text.len() != NAME_BYTES {
        return None;
    }
    let usrn = usrn_in(&text[..USRN_DIGITS])?;
    let lang = Lang::read(&text[USRN_DIGITS..])?;
    Some(Key::Descriptor(usrn, lang))
}

/// The key of a kind that the text names, or none, as for a release and an adoption, which have no
/// key of their own.
pub fn key_named(kind: Kind, text: &[u8]) -> Option<Key>
    ensures { result ≡ key_named kind text.now }
{
    match kind {
        Kind::Street => usrn_in(text).map(Key::Street),
        Kind::Descriptor => name_in(text),
        Kind::Blpu => uprn_in(text).map(Key::Blpu),
        Kind::Xref => Label::read(text).map(Key::Xref),
        Kind::Lpi => Label::read(text).map(Key::Lpi),
        Kind::Release | Kind::Adopt => None,
    }
}
