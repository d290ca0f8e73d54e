use gaz_ids::{Code, Volume};

/// How far a custodian's files are judged.
#[derive(Clone, Copy)]
pub struct Standing {
    pub custodian: Code,
    /// Files that were received and aren't judged.
    pub held: u64,
    /// Volumes that are judged.
    pub judged: u64,
    /// What the next volume waits for; none after volume 999,999.
    pub wants: Option<(Code, Volume)>,
}
