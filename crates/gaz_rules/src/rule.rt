//! The numbers of the rules by which a file is refused for what it changes (our profile), each
//! named as its test in `specs`. A verdict that rejects a file has one of them, one of
//! `gaz_end_rules::rule`, or one of `gaz_changefile::rule`.

/// A change of a street whose number is in none of the custodian's own blocks, or a change or a
/// release of a BLPU whose number it doesn't hold.
pub const OUTSIDE: u8 = 20;

/// An insert of an entry whose key was ever used.
pub const USED_AGAIN: u8 = 21;

/// An update or a deletion of an entry that isn't in the view.
pub const MISSING: u8 = 22;

/// A deletion of a street or a BLPU: a street is closed by an end date, a BLPU made historical.
pub const TAKES_WHAT_STAYS: u8 = 23;

/// An update of an LPI to another BLPU or another language, or of a cross reference to another
/// BLPU, than in the view.
pub const MOVES_WHAT_STAYS: u8 = 24;

/// A release whose hop isn't the own hop plus 1.
pub const WRONG_HOP: u8 = 40;

/// An adoption, and no basis line names the custodian from whom it is; or in the view of that basis
/// line the number wasn't released last, to this custodian and at this hop.
pub const UNRELEASED: u8 = 41;

/// An adoption whose hop isn't greater than the own hop.
pub const STALE: u8 = 42;
