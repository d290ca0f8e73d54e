//! Keys as two numbers.
ghost use Rattle.std.specs.Prelude.{◌≡◌, ◌<◌, true};
ghost use Rattle.std.proofs.Common.{rules};
ghost use Rattle.std.specs.Cmp.{partial_order_from_own_ties};
ghost use Rattle.std.specs.Cmp.Rules.{comparing};
ghost use Rattle.std.specs.Ordering.{as_partial_cmp, eq_by_cmp};
ghost use Rattle.gaz_fields.specs.Labels.{seven_bytes};
ghost use Rattle.gaz_records.specs.Keys.{key_cmp, kind_number, number_in};
ghost use Rattle.gaz_records.specs.KeyTies.{keys_alike, keys_total};
ghost use Rattle.gaz_records.specs.SortKeys.{has_label, high_of, lang_rank, low_of, written};

use crate::item::Kind;
use crate::key::Key;
use gaz_ids::Lang;
use std::cmp::Ordering;
use std::hash::{Hash, Hasher};
use std::marker::Model;

// The record identifier stands above the seven bytes behind it.
const SEVEN_BYTES: u64 = 1 << 56;

/// A key as two numbers, which compare as keys do. It takes 16 bytes, and a search goes by it
/// without asking for the kind.
///
/// The first number is the record identifier of the kind with the number or the first seven letters
/// and digits behind it; the second is the language, `CYM` before `ENG`, or the other seven.
#[derive(Clone, Copy)]
pub struct SortKey {
    high: u64,
    low: u64,
}

impl Model for SortKey {
    ghost use Rattle.gaz_records.specs.SortKeys.{IsSortKey, high_of, key_at, low_of};
    ghost use Rattle.gaz_records.specs.declared.key.Key.{Key};

    ghost Value = { Key };

    ghost view = { λ s. key_at s.high s.low };

    ghost invariant = { λ s. IsSortKey s.high s.low };

    ghost inverse = { λ k. record { high = high_of k; low = low_of k } };

    ghost inverse_ok = { λ a h i. record { high = h.first i; low = h.second i } };
}

// The language of a descriptor, in the order of languages.
fn rank(lang: Lang) -> u64
    ensures { result ≡ lang_rank lang }
{
    match lang {
        Lang::Cym => 0,
        Lang::Eng => 1,
    }
}

// The two numbers of a key.
fn numbers_of(key: &Key) -> (u64, u64)
    ensures high { result.0 ≡ high_of key.now }
    ensures low { result.1 ≡ low_of key.now }
    ensures number { number_in key.now < seven_bytes }
    ensures label { has_label key.now ≡ true }
{
    match key {
        Key::Street(usrn) => (Kind::Street.number() * SEVEN_BYTES + usrn.number(), 0),
        Key::Descriptor(usrn, lang) => (
            Kind::Descriptor.number() * SEVEN_BYTES + usrn.number(),
            rank(*lang),
        ),
        Key::Blpu(uprn) => (Kind::Blpu.number() * SEVEN_BYTES + uprn.number(), 0),
        Key::Xref(label) => {
            let (first, second) = label.halves();
            (Kind::Xref.number() * SEVEN_BYTES + first, second)
        }
        Key::Lpi(label) => {
            let (first, second) = label.halves();
            (Kind::Lpi.number() * SEVEN_BYTES + first, second)
        }
    }
}

impl SortKey {
    /// The numbers of a key.
    pub fn of(key: &Key) -> SortKey
        ensures { result ≡ key.now }
    {
        let (high, low) = numbers_of(key);
        SortKey { high, low }
    }

    /// The record identifier of the key's kind.
    pub fn kind_number(&self) -> u64
        ensures { result ≡ kind_number self.now }
    {
        self.high / SEVEN_BYTES
    }
}

impl Ord for SortKey {
    ghost cmp = { key_cmp };

    ghost total = { Prim.search (comparing, rules, keys_total) };

    ghost matches_partial_cmp = { Prim.search (comparing, rules) };

    ghost matches_eq = { Prim.search (comparing, rules) };

    fn cmp(&self, other: &Self) -> Ordering {
        self.high.cmp(&other.high).then(self.low.cmp(&other.low))
    }
}

impl PartialOrd for SortKey {
    ghost partial_cmp = { as_partial_cmp key_cmp };

    ghost laws = { partial_order_from_own_ties
        (Prim.search (comparing, rules, keys_total)) (Prim.search (comparing, rules)) };

    fn partial_cmp(&self, other: &Self) -> Option<Ordering> {
        Some(self.cmp(other))
    }
}

impl PartialEq for SortKey {
    ghost eq = { eq_by_cmp key_cmp };

    ghost laws = { Prim.search (comparing, rules, keys_total) };

    fn eq(&self, other: &Self) -> bool {
        self.cmp(other).is_eq()
    }
}

impl Eq for SortKey {
    ghost laws = { Prim.search (comparing, rules, keys_total) };
}

impl Hash for SortKey {
    ghost hash_input = { written };

    ghost respects_eq = { keys_alike.fed };

    fn hash<H: Hasher>(&self, state: &mut H) {
        state.write_u64(self.high);
        state.write_u64(self.low);
    }
}
