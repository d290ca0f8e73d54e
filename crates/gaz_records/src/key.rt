ghost use Rattle.std.specs.Prelude.{◌≡◌};
ghost use Rattle.gaz_records.specs.Keys.{key_cmp, key_of};

use crate::item::Item;
use gaz_fields::RecordKey;
use gaz_ids::{Lang, Uprn, Usrn};
use std::cmp::Ordering;

/// Which item of a custodian. Keys of two custodians are apart.
///
/// In order they go by kind, then by number, a street's descriptors `CYM` before `ENG`, and by the
/// bytes of the key.
#[derive(Clone, Copy, PartialEq, Eq, PartialOrd, Ord)]
pub enum Key {
    Street(Usrn),
    Descriptor(Usrn, Lang),
    Blpu(Uprn),
    Xref(RecordKey),
    Lpi(RecordKey),
}

impl Key {
    #[tactic(auto, using(crate::proofs::KeyOrder::orders))]
    /// How this key compares with another, as `cmp` does.
    pub fn compare(&self, other: &Key) -> Ordering
        ensures { result ≡ key_cmp self.now other.now }
    {
        self.cmp(other)
    }
}

/// The key under which an item stands; of a release and an adoption that of their BLPU.
pub fn key_of(item: &Item) -> Key
    ensures { result ≡ key_of item.now }
{
    match item {
        Item::Street(street) => Key::Street(street.usrn),
        Item::Descriptor(descriptor) => Key::Descriptor(descriptor.usrn, descriptor.lang),
        Item::Blpu(blpu) => Key::Blpu(blpu.uprn),
        Item::Xref(xref) => Key::Xref(xref.key),
        Item::Lpi(lpi) => Key::Lpi(lpi.key),
        Item::Release(release) => Key::Blpu(release.uprn),
        Item::Adopt(adopt) => Key::Blpu(adopt.blpu.uprn),
    }
}
