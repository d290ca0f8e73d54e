//! What is asked of the changes, and of the laid view.
ghost use Rattle.std.specs.Prelude.{◌≡◌, filter, IfOk};
ghost use Rattle.gaz_views.specs.Words.{approved_of, approved_on, has_children, tied};
ghost use Rattle.gaz_overlay.specs.Laid.{untouched};
ghost use Rattle.gaz_overlay.specs.Questions.{both};

use crate::merging::merged;
use crate::overlay::{Overlay, WORKING};
use gaz_ids::{Lang, Uprn, Usrn};
use gaz_records::Key;
use std::alloc::{AllocError, Global};

impl Overlay {
    // Those of these keys at which the last view has a say.
    fn spared(&self, alloc: Global, keys: &[Key]) -> Result<Vec<Key>, AllocError>
        ensures { IfOk result (λ spared. spared.items
            ≡ filter (untouched self.now.view) keys.now) }
    {
        let mut spared = Vec::new(alloc);
        for key in keys {
            if !self.hides(key) {
                spared.push(*key)?;
            }
        }
        Ok(spared)
    }

    /// The keys of the BLPU's approved LPIs, in key order; `last` are those of the last view.
    pub fn approved_of(
        &self,
        alloc: Global,
        last: &[Key],
        uprn: Uprn,
    ) -> Result<Vec<Key>, AllocError>
        ensures { IfOk result (λ keys. keys.items
            ≡ both self.now.view last.now (approved_of self.now.view uprn)) }
    {
        let spared = self.spared(alloc, last)?;
        let own = self.ledger.ledger().approved_of(alloc, WORKING, uprn)?;
        Ok(merged(alloc, &spared, &own)?)
    }

    /// Whether an approved LPI that the changes put is on the street, in this language where one is
    /// given.
    pub fn approved_on(&self, usrn: Usrn, lang: Option<Lang>) -> bool
        ensures { result ≡ approved_on self.now.view usrn lang }
    {
        self.ledger.ledger().approved_on(WORKING, usrn, lang)
    }

    /// Whether a BLPU that the changes put is a part of this one.
    pub fn has_children(&self, uprn: Uprn) -> bool
        ensures { result ≡ has_children self.now.view uprn }
    {
        self.ledger.ledger().has_children(WORKING, uprn)
    }

    /// Whether an LPI or a cross reference that the changes put, of whatever status, names the
    /// BLPU. The first time in a judgement all changes are gone through.
    pub fn tied(&mut self, uprn: Uprn) -> Result<bool, AllocError>
        ensures tied { IfOk result (λ is. is ≡ tied self.old.view uprn) }
        ensures same { self.new ≡ self.old }
    {
        Ok(self.ledger.tied(WORKING, uprn)?)
    }
}
