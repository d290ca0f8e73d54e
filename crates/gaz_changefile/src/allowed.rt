ghost use Rattle.std.specs.Prelude.{◌≡◌};
ghost use Rattle.gaz_changefile.specs.Allowed.{may_name, named_in};

use crate::action::Action;
use gaz_ids::Code;
use gaz_records::Item;

// The custodian to whom a property is released, or from whom it is adopted.
fn named_in(item: &Item) -> Option<Code>
    ensures { result ≡ named_in item.now }
{
    match item {
        Item::Release(release) => Some(release.to),
        Item::Adopt(adopt) => Some(adopt.from),
        _ => None,
    }
}

/// Whether a file of this custodian may hold such a change: any of an entry, and of a release or an
/// adoption an insertion that names another custodian.
pub(crate) fn is_allowed(own: Code, action: Action, item: &Item) -> bool
    ensures { result ≡ may_name own action (named_in item.now) }
{
    match named_in(item) {
        Some(other) => action == Action::Insert && other.number() != own.number(),
        None => true,
    }
}
