//! The numbers of the end rules, by which a file is refused for what stands behind its last record
//! (our profile), each named as its test in `specs`.

/// An approved LPI, and another approved LPI has the same BLPU.
pub const SECOND: u8 = 30;

/// An LPI or a cross reference whose BLPU isn't in the view; or a BLPU that isn't in the view, and
/// an LPI or a cross reference names it.
pub const UNTIED: u8 = 31;

/// An approved LPI whose street is found nowhere.
pub const LACKS_STREET: u8 = 32;

/// An approved LPI whose found street is closed.
pub const NAMES_CLOSED: u8 = 33;

/// An approved LPI whose street is found in a view without a descriptor in the LPI's language; or a
/// descriptor that isn't in the view, its street is, and an approved LPI has that street and
/// language.
pub const UNNAMED: u8 = 34;

/// A BLPU whose parent isn't in the view; or a BLPU that isn't in the view and has parts in it.
pub const APART: u8 = 35;

/// A BLPU from which a chain of one or more parents leads to itself.
pub const OWN_ANCESTOR: u8 = 36;

/// An approved LPI whose BLPU is historical; or a historical BLPU that has an approved LPI.
pub const OUT_OF_DATE: u8 = 37;

/// A descriptor whose street isn't in the view.
pub const LACKS_OWN_STREET: u8 = 38;

/// A closed street that an approved LPI names.
pub const CLOSED_UNDER_LPI: u8 = 39;
