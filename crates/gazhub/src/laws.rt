//! What a reader of the definitions may rely on.
ghost use Rattle.std.specs.Prelude.{ℕ, List};
ghost use Rattle.gaz_exchange.specs.Conversing.{Transfer};
ghost use Rattle.gazhub.specs.Sessions.{SessionsAreOne};
ghost use Rattle.gazhub.specs.WorkedEndings.{WorkedEndings};
ghost use Rattle.gazhub.specs.WorkedSessions.{WorkedSessions};
ghost use Rattle.gazhub.specs.WorkedSites.{WorkedSites};
ghost use Rattle.gazhub.specs.declared.ending.Ending.{Ending};

use crate::site::Site;
use sqlite_disk::Disk;

/// Sessions of commands, as `command` says of each, at a site that keeps a store's files: over
/// these they are one run of one hub, whatever their words, however often each of them opened the
/// files, and however many sessions end in a stop. They begin with a store that is there, or that
/// an opening before makes or migrates; each opening has its connection, and each session finds
/// what is found after the one before. None makes a store again: an `init` over one is refused. A
/// command that never returned is none of them.
pub fn sessions_are_one<S: Site>()
    ensures { (text : List ℕ) (most : ℕ) → SessionsAreOne S.Medium.Disk S.done text most }
{}

/// What is done at a site, and how the program ends, on worked examples.
pub fn worked_sites<D: Disk>()
    ensures { WorkedSites D.Disk }
{}

/// What commands that are given one after another leave of a store's files, on worked examples.
pub fn worked_sessions<S: Site>()
    ensures { WorkedSessions S.done S.Medium.Disk }
{}

/// How the program ends at words, on worked examples.
pub fn worked_endings<S: Site>()
    ensures { (text : List ℕ) (most : ℕ) (before after : S) (through : Transfer) (ending : Ending)
        → WorkedEndings S.done S.Medium.Disk text most before after through ending }
{}
