ghost use Rattle.std.specs.Prelude.{◌≡◌, ◌≤◌, ◌<◌, ◌+◌, drop, true};
ghost use Rattle.std.proofs.Common.{rules};
ghost use Rattle.std.specs.Cmp.{partial_order_from_own_ties};
ghost use Rattle.std.specs.Cmp.Rules.{comparing};
ghost use Rattle.std.specs.Ordering.{as_partial_cmp};
ghost use Rattle.gaz_fields.specs.Labels.{AreBytes, are_label_bytes, before_zero, is_label};
ghost use Rattle.gaz_fields.specs.Labels.{first_half, label_cmp, label_eq, label_of, second_half};
ghost use Rattle.gaz_fields.specs.Labels.{seven_bytes, word};
ghost use Rattle.std.specs.Ordering.{nat_cmp};
ghost use Rattle.std.specs.Cmp.Lexicographic.{slice_cmp};

use std::cmp::Ordering;
use std::marker::Model;

/// A label of 1 to `MOST` letters `A` to `Z` and digits `0` to `9` (our profile). Its order is that
/// of its bytes.
#[derive(Clone, Copy)]
pub struct Label<const MOST: usize> {
    bytes: [u8; MOST],
}

/// The key of a cross reference or an LPI.
pub type RecordKey = Label<14>;

/// Where a cross reference comes from.
pub type Source = Label<6>;

impl<const MOST: usize> Model for Label<MOST> {
    ghost use Rattle.std.specs.Prelude.{ℕ, List, take};
    ghost use Rattle.gaz_fields.specs.Labels.{IsPadded, before_zero, padded};

    ghost Value = { List ℕ };

    // The bytes behind the label are 0, so that equal labels are equal in all bytes.
    ghost view = { λ a. take (before_zero a.bytes) a.bytes };

    ghost invariant = { λ a. IsPadded MOST (before_zero a.bytes) a.bytes };

    ghost inverse = { λ t. record { bytes = padded MOST t } };

    ghost inverse_ok = { λ a h i. record { bytes = h.rest i } };
}

fn has_label_bytes(bytes: &[u8]) -> bool
    ensures { result ≡ are_label_bytes bytes.now }
{
    for byte in bytes {
        if !byte.is_ascii_uppercase() && !byte.is_ascii_digit() {
            return false;
        }
    }
    true
}

// How many bytes stand before the first 0.
fn count_before_zero(bytes: &[u8]) -> usize
    ensures { result ≡ before_zero bytes.now }
{
    for (index, byte) in bytes.iter().enumerate() {
        if *byte == 0 {
            return index;
        }
    }
    bytes.len()
}

// The four bytes from `start` on as one number, the first byte foremost, with 0 for each byte that
// is not there.
fn word_at<const MOST: usize>(bytes: &[u8; MOST], start: usize) -> u32
    requires within { start < MOST }
    requires bytes { AreBytes bytes.now }
    ensures { result ≡ word 4 (drop start bytes.now) }
{
    let mut word: u32 = 0;
    for offset in 0..4 {
        let byte = if offset < MOST - start {
            bytes[start + offset]
        } else {
            0
        };
        word = word * 256 + u32::from(byte);
    }
    word
}

// How the bytes compare. LLVM reads a number of four bytes by one load, and one of eight byte by
// byte.
fn compare_by_words<const MOST: usize>(one: &[u8; MOST], other: &[u8; MOST]) -> Ordering
    requires one { AreBytes one.now }
    requires other { AreBytes other.now }
    ensures { result ≡ slice_cmp nat_cmp one.now other.now }
{
    for index in 0..MOST.div_ceil(4) {
        let order = word_at(one, 4 * index).cmp(&word_at(other, 4 * index));
        if order.is_ne() {
            return order;
        }
    }
    Ordering::Equal
}

impl<const MOST: usize> Label<MOST> {
    #[tactic(auto, using(std::proofs::lemmas::Bool::Decides::nat_tests))]
    /// The label that these bytes are.
    pub fn read(text: &[u8]) -> Option<Self>
        ensures { result ≡ label_of MOST text.now }
    {
        if text.is_empty() || text.len() > MOST || !has_label_bytes(text) {
            return None;
        }
        let mut bytes = [0; MOST];
        for (i, byte) in text.iter().enumerate() {
            bytes[i] = *byte;
        }
        Some(Label { bytes })
    }

    /// The letters and digits.
    pub fn as_bytes(&self) -> &[u8]
        ensures value { result.now ≡ self.now }
        ensures form { is_label MOST self.now ≡ true }
    {
        &self.bytes[..count_before_zero(&self.bytes)]
    }
}

// The seven bytes from `start` on as one number, the first byte foremost.
fn seven_at(bytes: &[u8; 14], start: usize) -> u64
    requires within { start + 7 ≤ 14 }
    requires bytes { AreBytes bytes.now }
    ensures { result ≡ word 7 (drop start bytes.now) }
{
    let mut word: u64 = 0;
    for offset in 0..7 {
        word = word * 256 + u64::from(bytes[start + offset]);
    }
    word
}

impl RecordKey {
    /// The first seven bytes as one number and the other seven as another, each with its first byte
    /// foremost and 0 for each byte that is not there.
    pub fn halves(&self) -> (u64, u64)
        ensures first { result.0 ≡ first_half self.now }
        ensures second { result.1 ≡ second_half self.now }
        ensures below { result.0 < seven_bytes }
        ensures form { is_label 14 self.now ≡ true }
    {
        (seven_at(&self.bytes, 0), seven_at(&self.bytes, 7))
    }
}

impl<const MOST: usize> Ord for Label<MOST> {
    ghost cmp = { label_cmp };

    ghost total = { Prim.search (comparing, rules) };

    ghost matches_partial_cmp = { Prim.search (comparing, rules) };

    ghost matches_eq = { Prim.search (comparing, rules) };

    fn cmp(&self, other: &Self) -> Ordering {
        compare_by_words(&self.bytes, &other.bytes)
    }
}

impl<const MOST: usize> PartialOrd for Label<MOST> {
    ghost partial_cmp = { as_partial_cmp label_cmp };

    ghost laws = { partial_order_from_own_ties
        (Prim.search (comparing, rules)) (Prim.search (comparing, rules)) };

    fn partial_cmp(&self, other: &Self) -> Option<Ordering> {
        Some(self.cmp(other))
    }
}

impl<const MOST: usize> PartialEq for Label<MOST> {
    ghost eq = { label_eq };

    ghost laws = { Prim.search (comparing, rules) };

    fn eq(&self, other: &Self) -> bool {
        self.cmp(other).is_eq()
    }
}

impl<const MOST: usize> Eq for Label<MOST> {
    ghost laws = { Prim.search (comparing, rules) };
}
