/// The greatest UPRN, twelve digits (BS 7666:2006, Part 2).
pub const LAST_UPRN: u64 = 999_999_999_999;

/// The greatest USRN, eight digits (BS 7666:2006, Part 1).
pub const LAST_USRN: u64 = 99_999_999;

/// The greatest code of a custodian (our profile).
pub const LAST_CODE: u64 = 9999;

/// How often a property can pass between custodians (our profile).
pub const LAST_HOP: u64 = 9999;

/// The last volume that a custodian can send, 999,999 (our profile): the greatest `Volume`.
pub const LAST_VOLUME: u64 = 999_999;

/// The most basis lines of a change file (our profile).
pub const MOST_BASES: u64 = 16;

/// The most change records of a change file (our profile).
pub const MOST_CHANGES: u64 = 5000;

/// The most bytes of a change file, and so of the body that brings one: 1,048,576, one MiB (our
/// profile).
pub const MOST_BYTES: u64 = 1_048_576;
