//! The numbers of the rules by which a file is refused (our profile).

/// The bytes aren't UTF-8, or there is no record.
pub const TEXT: u8 = 1;

/// The first record is no header of a known profile.
pub const HEADER: u8 = 2;

/// The header names another custodian or volume than the file came under.
pub const ADDRESS: u8 = 3;

/// A basis line that names no custodian and volume, or the own custodian, or none of a greater code
/// than the one before, or the seventeenth, or one after a change record.
pub const BASIS: u8 = 4;

/// A record of no kind that the profile has, or with too few or too many fields.
pub const SHAPE: u8 = 5;

/// A change type or a field of an item of a wrong form, or a release or adoption that is no
/// insertion or names the own custodian.
pub const FORM: u8 = 6;

/// An order that isn't the next of 1, 2, 3 and so on.
pub const ORDER: u8 = 7;

/// A trailer that isn't two fields with the count of the change records, a record after the
/// trailer, or no trailer at the end.
pub const TRAILER: u8 = 8;

/// More than 5,000 change records.
pub const LIMIT: u8 = 9;
