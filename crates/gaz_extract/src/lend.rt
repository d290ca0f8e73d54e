//! What an item that a keeper gave is.
ghost use Rattle.std.specs.Prelude.{◌≡◌, option_map};
ghost use Rattle.std.specs.Option.{option_and_then};
ghost use Rattle.gaz_extract.specs.Finding.{as_descriptor, as_lpi, as_street};

use gaz_records::{Descriptor, Item, Lpi, SharedItem, Street, item_in};

/// The street, where it is one.
pub fn street_in(item: &Option<SharedItem>) -> Option<&Street>
    ensures { option_map (λ s. s.now) result ≡ option_and_then as_street item.now }
{
    match item_in(item) {
        Some(Item::Street(street)) => Some(street),
        _ => None,
    }
}

/// The descriptor, where it is one.
pub fn descriptor_in(item: &Option<SharedItem>) -> Option<&Descriptor>
    ensures { option_map (λ d. d.now) result ≡ option_and_then as_descriptor item.now }
{
    match item_in(item) {
        Some(Item::Descriptor(descriptor)) => Some(descriptor),
        _ => None,
    }
}

/// The LPI, where it is one.
pub fn lpi_in(item: &Option<SharedItem>) -> Option<&Lpi>
    ensures { option_map (λ l. l.now) result ≡ option_and_then as_lpi item.now }
{
    match item_in(item) {
        Some(Item::Lpi(lpi)) => Some(lpi),
        _ => None,
    }
}
