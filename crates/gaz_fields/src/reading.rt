//! The fields of a record.
ghost use Rattle.std.specs.Prelude.{◌≡◌, ◌≤◌, ◌+◌, drop};
ghost use Rattle.csv.specs.Records.{fields_of};
ghost use Rattle.gaz_fields.specs.Fields.{counted, field};

use crate::fields::FieldFault;
use csv::ByteRecord;
use std::marker::Model;

/// The fields of a record behind the first ones, of which there are at most 3.
///
/// Places count from 0. What reads the field at place `i` as a form answers `Form` with `i + 1`
/// where it hasn't that form, and `Memory` only where it takes an allocator.
#[derive(Drop)]
pub struct Fields<'a> {
    row: &'a ByteRecord,
    skip: usize,
}

impl<'a> Model for Fields<'a> {
    ghost use Rattle.std.specs.Prelude.{List, ℕ, drop, ◌≤◌};
    ghost use Rattle.csv.specs.Records.{fields_of};

    ghost Value = { List (List ℕ) };

    ghost view = { λ s. drop s.skip (fields_of s.row.now) };

    ghost invariant = { λ s. s.skip ≤ 3 };
}

/// The fault of a field, counted from 0.
pub(crate) fn bad(i: usize) -> FieldFault
    requires { i ≤ 16 }
    ensures { result ≡ FieldFault.Form (i + 1) }
{
    FieldFault::Form { field: i as u8 + 1 }
}

impl<'a> Fields<'a> {
    /// The fields behind the first `skip` ones.
    pub fn behind(row: &'a ByteRecord, skip: usize) -> Self
        requires { skip ≤ 3 }
        ensures { result ≡ drop skip (fields_of row.now) }
    {
        Fields { row, skip }
    }

    #[tactic(auto, using(std::proofs::lemmas::Bool::Decides::nat_tests, crate::proofs::Places::field_drops))]
    /// Whether there are `count` fields, else `Count`.
    pub fn count_is(&self, count: usize) -> Result<(), FieldFault>
        requires { (1 ≤ count) × (count ≤ 17) }
        ensures { result ≡ counted count self.now }
    {
        if self.row.len() != self.skip + count {
            return Err(FieldFault::Count);
        }
        Ok(())
    }

    #[tactic(auto, using(crate::proofs::Places::field_drops))]
    /// The field at a place, from 0; a missing one is empty.
    pub fn get(&self, i: usize) -> &'a [u8]
        requires { i ≤ 20 }
        ensures { result.now ≡ field self.now i }
    {
        match self.row.get(self.skip + i) {
            Some(text) => text,
            None => &[],
        }
    }
}
