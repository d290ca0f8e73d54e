//! What the key of a street or of a descriptor breaks by itself, for what others name.
ghost use Rattle.std.specs.Prelude.{◌≡◌};
ghost use Rattle.std.specs.FinMap as map;
ghost use Rattle.gaz_records.specs.declared.key.Key.TheVariants as key;
ghost use Rattle.gaz_views.specs.View.{holds};
ghost use Rattle.gaz_views.specs.Words.{approved_on};
ghost use Rattle.gaz_end_rules.specs.Breaches.{key_faults, no_key_fault};
ghost use Rattle.gaz_end_rules.specs.EndRules.{closed_under_lpi};
ghost use Rattle.gaz_end_rules.specs.Working.{IsJudging, ReadsView};

use crate::streets::StreetState;
use gaz_ids::{Code, Lang, Usrn};
use gaz_keeper::{Shelf, ShelfFault};
use gaz_records::{Key, SharedItem};

/// The end rules that a key breaks by itself.
#[derive(Clone, Copy)]
pub(crate) struct KeyFaults {
    /// The second half of rule 31: a BLPU that isn't there, and an LPI or cross reference names it.
    pub(crate) leaves_ties: bool,
    /// The second half of rule 34: a descriptor that isn't there, and an approved LPI needs it.
    pub(crate) leaves_lpi: bool,
    /// The first half of rule 35: a BLPU whose parent isn't there.
    pub(crate) lacks_parent: bool,
    /// The second half of rule 35: a BLPU that isn't there and has parts.
    pub(crate) leaves_parts: bool,
    /// Rule 36: a BLPU on a ring of parents.
    pub(crate) is_own_ancestor: bool,
    /// The second half of rule 37: a historical BLPU with an approved LPI.
    pub(crate) past_under_lpi: bool,
    /// Rule 38: a descriptor whose street isn't there.
    pub(crate) lacks_own_street: bool,
    /// Rule 39: a closed street with an approved LPI.
    pub(crate) closed_under_lpi: bool,
}

impl KeyFaults {
    /// None of them.
    pub(crate) fn none() -> KeyFaults
        ensures { result ≡ no_key_fault }
    {
        KeyFaults {
            leaves_ties: false,
            leaves_lpi: false,
            lacks_parent: false,
            leaves_parts: false,
            is_own_ancestor: false,
            past_under_lpi: false,
            lacks_own_street: false,
            closed_under_lpi: false,
        }
    }
}

/// Whether something stands under a key in the view that is judged. A fault is `Memory` or `Store`.
pub fn is_there<K: Shelf>(keeper: &mut K, code: Code, key: &Key) -> Result<bool, ShelfFault>
    requires { IsJudging K.seen keeper.old code }
    ensures { ReadsView K.seen keeper.old keeper.new result (λ v b. b ≡ holds v key.now) }
{
    Ok(keeper.current(code, key)?.is_some())
}

// Whether an approved LPI is on a street, in this language where one is given.
fn has_lpi_on<K: Shelf>(
    keeper: &mut K,
    code: Code,
    usrn: Usrn,
    lang: Option<Lang>,
) -> Result<bool, ShelfFault>
    requires { IsJudging K.seen keeper.old code }
    ensures { ReadsView K.seen keeper.old keeper.new result (λ v b. b ≡ approved_on v usrn lang) }
{
    keeper.approved_on(code, usrn, lang)
}

// Whether a street is closed and an approved LPI is on it.
fn closed_under_lpi<K: Shelf>(
    keeper: &mut K,
    code: Code,
    usrn: Usrn,
    stored: &Option<SharedItem>,
) -> Result<bool, ShelfFault>
    requires { IsJudging K.seen keeper.old code }
    ensures { ReadsView K.seen keeper.old keeper.new result
        (λ v b. stored.now ≡ map.get v.items (key.Street usrn)
        → b ≡ closed_under_lpi v (key.Street usrn)) }
{
    if !StreetState::of(stored).is_closed {
        return Ok(false);
    }
    has_lpi_on(keeper, code, usrn, None)
}

/// What a street breaks.
pub(crate) fn street_faults<K: Shelf>(
    keeper: &mut K,
    code: Code,
    usrn: Usrn,
    stored: &Option<SharedItem>,
) -> Result<KeyFaults, ShelfFault>
    requires { IsJudging K.seen keeper.old code }
    ensures { ReadsView K.seen keeper.old keeper.new result
        (λ v f. stored.now ≡ map.get v.items (key.Street usrn)
        → f ≡ key_faults v (key.Street usrn)) }
{
    let mut faults = KeyFaults::none();
    faults.closed_under_lpi = closed_under_lpi(keeper, code, usrn, stored)?;
    Ok(faults)
}

/// What a descriptor breaks, there or not. Its street is looked up once.
pub(crate) fn descriptor_faults<K: Shelf>(
    keeper: &mut K,
    code: Code,
    usrn: Usrn,
    lang: Lang,
    stored: &Option<SharedItem>,
) -> Result<KeyFaults, ShelfFault>
    requires { IsJudging K.seen keeper.old code }
    ensures { ReadsView K.seen keeper.old keeper.new result
        (λ v f. stored.now ≡ map.get v.items (key.Descriptor usrn lang)
        → f ≡ key_faults v (key.Descriptor usrn lang)) }
{
    let mut faults = KeyFaults::none();
    let has_street = is_there(keeper, code, &Key::Street(usrn))?;
    if stored.is_some() {
        faults.lacks_own_street = !has_street;
        return Ok(faults);
    }
    if has_street {
        faults.leaves_lpi = has_lpi_on(keeper, code, usrn, Some(lang))?;
    }
    Ok(faults)
}
