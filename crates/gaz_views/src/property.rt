ghost use Rattle.std.specs.Prelude.{◌≡◌, IfOk, option_map};

use gaz_records::SharedItem;
use std::alloc::AllocError;

/// A BLPU with its address.
#[derive(Drop)]
pub struct Property {
    pub blpu: SharedItem,
    /// Its approved LPI: that of the least key, where there are several.
    pub address: Option<SharedItem>,
}

impl Property {
    /// The property for one more who holds it; a fault where nobody can count its items any more.
    pub fn share(&self) -> Result<Property, AllocError>
        ensures { IfOk result (λ p. p ≡ self.now) }
    {
        Ok(Property {
            blpu: self.blpu.share()?,
            address: share_found(self.address.as_ref())?,
        })
    }
}

/// The found item for one more who holds it, where there is one.
pub fn share_found(found: Option<&SharedItem>) -> Result<Option<SharedItem>, AllocError>
    ensures { IfOk result (λ i. i ≡ option_map (λ x. x.now) found.entry) }
{
    match found {
        Some(item) => Ok(Some(item.share()?)),
        None => Ok(None),
    }
}
