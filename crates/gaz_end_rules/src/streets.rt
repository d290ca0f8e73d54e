//! Streets, in the view that is judged and in those of basis custodians.
ghost use Rattle.std.specs.Prelude.{◌≡◌, ◌≤◌, true, IfSome};
ghost use Rattle.std.specs.Option.{option_map};
ghost use Rattle.gaz_views.specs.View.{holds};
ghost use Rattle.gaz_keeper.specs.Board.{reached, view_after};
ghost use Rattle.gaz_end_rules.specs.Bases.{are_reached, basis_views};
ghost use Rattle.gaz_end_rules.specs.EndRules.{found_in, is_closed};
ghost use Rattle.gaz_end_rules.specs.Streets.{IsReached, state_of, street_faults, street_state};
ghost use Rattle.gaz_end_rules.specs.Streets.{view_in};
ghost use Rattle.gaz_end_rules.specs.Working.{IsJudging, ReadsContent, ReadsView, ReadsViews};

use gaz_changefile::Basis;
use gaz_ids::{Code, Lang, Usrn};
use gaz_keeper::{Shelf, ShelfFault};
use gaz_records::{Item, Key, SharedItem, item_in};

/// Whether a street is there, and whether it is closed.
#[derive(Clone, Copy)]
pub(crate) struct StreetState {
    pub(crate) is_there: bool,
    pub(crate) is_closed: bool,
}

impl StreetState {
    pub(crate) fn of(stored: &Option<SharedItem>) -> StreetState
        ensures { result ≡ state_of stored.now }
    {
        let is_there = stored.is_some();
        let Some(Item::Street(street)) = item_in(stored) else {
            return StreetState {
                is_there,
                is_closed: false,
            };
        };
        StreetState {
            is_there,
            is_closed: street.end.is_some(),
        }
    }
}

// A street in the view that is judged.
fn own_street<K: Shelf>(keeper: &mut K, code: Code, usrn: Usrn) -> Result<StreetState, ShelfFault>
    requires { IsJudging K.seen keeper.old code }
    ensures { ReadsView K.seen keeper.old keeper.new result (λ view s. s ≡ street_state view usrn) }
{
    let stored = keeper.current(code, &Key::Street(usrn))?;
    Ok(StreetState::of(&stored))
}

// A street after the named volume of a basis custodian.
fn basis_street<K: Shelf>(
    keeper: &mut K,
    basis: Basis,
    usrn: Usrn,
) -> Result<StreetState, ShelfFault>
    ensures { ReadsContent K.seen keeper.old keeper.new result (λ content s.
        basis.volume ≤ reached content.board basis.custodian
        → s ≡ street_state (view_after content.board basis.custodian basis.volume) usrn) }
{
    let volume = basis.volume.number();
    let stored = keeper.at(basis.custodian, volume, &Key::Street(usrn))?;
    Ok(StreetState::of(&stored))
}

/// The view where a street is found.
#[derive(Clone, Copy)]
pub(crate) enum Place {
    Own,
    At(Basis),
}

/// A street that is found.
#[derive(Clone, Copy)]
struct Found {
    place: Place,
    is_closed: bool,
}

// Where a street is found: in the own view, else in the first basis view, in the order of the
// file, that has it.
fn find_street<K: Shelf>(
    keeper: &mut K,
    code: Code,
    bases: &[Basis],
    usrn: Usrn,
) -> Result<Option<Found>, ShelfFault>
    requires { IsJudging K.seen keeper.old code }
    ensures { ReadsContent K.seen keeper.old keeper.new result (λ content found.
        are_reached content.board bases.now ≡ true →
        (option_map (λ x. view_in content x.place) found
        ≡ found_in content.working (basis_views content.board bases.now) usrn)
        × IfSome found (λ x. IsReached content x.place
        × (x.is_closed ≡ is_closed (view_in content x.place) usrn))) }
{
    let own = own_street(keeper, code, usrn)?;
    if own.is_there {
        return Ok(Some(Found {
            place: Place::Own,
            is_closed: own.is_closed,
        }));
    }
    for basis in bases {
        let street = basis_street(keeper, *basis, usrn)?;
        if street.is_there {
            return Ok(Some(Found {
                place: Place::At(*basis),
                is_closed: street.is_closed,
            }));
        }
    }
    Ok(None)
}

// Whether something stands under a key in the view at a place.
fn stands_at<K: Shelf>(
    keeper: &mut K,
    code: Code,
    place: Place,
    key: &Key,
) -> Result<bool, ShelfFault>
    requires { IsJudging K.seen keeper.old code }
    ensures { ReadsContent K.seen keeper.old keeper.new result
        (λ content b. IsReached content place → b ≡ holds (view_in content place) key.now) }
{
    match place {
        Place::Own => Ok(keeper.current(code, key)?.is_some()),
        Place::At(basis) => {
            let volume = basis.volume.number();
            Ok(keeper.at(basis.custodian, volume, key)?.is_some())
        }
    }
}

/// What an approved LPI breaks by its street.
#[derive(Clone, Copy, PartialEq, Eq)]
pub(crate) struct StreetFaults {
    /// Rule 32: it is found nowhere.
    pub(crate) is_nowhere: bool,
    /// Rule 33: it is closed in the view where it is found.
    pub(crate) is_closed: bool,
    /// The first half of rule 34: that view has no descriptor of it in the LPI's language.
    pub(crate) is_unnamed: bool,
}

/// What an approved LPI breaks that names this street in this language. The street is looked up
/// once in each view up to the first that has it, and the descriptor once.
pub(crate) fn street_faults<K: Shelf>(
    keeper: &mut K,
    code: Code,
    bases: &[Basis],
    usrn: Usrn,
    lang: Lang,
) -> Result<StreetFaults, ShelfFault>
    requires { IsJudging K.seen keeper.old code }
    ensures { ReadsViews K.seen keeper.old keeper.new result bases.now
        (λ view others f. f ≡ street_faults view others usrn lang) }
{
    let Some(street) = find_street(keeper, code, bases, usrn)? else {
        return Ok(StreetFaults {
            is_nowhere: true,
            is_closed: false,
            is_unnamed: false,
        });
    };
    let is_named = stands_at(keeper, code, street.place, &Key::Descriptor(usrn, lang))?;
    Ok(StreetFaults {
        is_nowhere: false,
        is_closed: street.is_closed,
        is_unnamed: !is_named,
    })
}
