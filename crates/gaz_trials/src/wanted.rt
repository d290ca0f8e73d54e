//! What a test wants, where it stands once: each assertion costs the proof of its function some
//! five seconds.
use std::process::Abort;

/// It is so; else the test ends and says this.
pub(crate) fn holds(rt: &impl Abort, is_so: bool, what: &str) {
    assert!(rt; is_so, "{what}");
}

/// So many are wanted, and so many were found.
pub(crate) fn counts(rt: &impl Abort, found: u64, wanted: u64) {
    assert_eq!(rt; found, wanted);
}

/// Of each pair the second is wanted, and the first was found.
pub(crate) fn counts_all(rt: &impl Abort, pairs: &[(u64, u64)]) {
    for (found, wanted) in pairs {
        counts(rt, *found, *wanted);
    }
}
