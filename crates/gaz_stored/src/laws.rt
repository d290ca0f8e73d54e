//! What a reader of the definitions may rely on.
ghost use Rattle.sqlite.specs.Held.{Held, state};
ghost use Rattle.gaz_calls.specs.Seen.{IsUnharmed};
ghost use Rattle.gaz_store.specs.Opened.{IsRefused};
ghost use Rattle.gaz_stored.specs.CallExamples.{WorkedCalls};
ghost use Rattle.gaz_stored.specs.Calls.{CallsAreOne};
ghost use Rattle.gaz_stored.specs.Examples.{WorkedExamples};
ghost use Rattle.gaz_stored.specs.Filling.{VolumesStay};
ghost use Rattle.gaz_stored.specs.FillingExamples.{WorkedFilling};
ghost use Rattle.gaz_stored.specs.MeetingExamples.{WorkedMeetings};
ghost use Rattle.gaz_stored.specs.Migrating.{MigratedStands};
ghost use Rattle.gaz_stored.specs.Reopening.{OpensAgain};

use gaz_keeper::Inbox;
use sqlite::Alter;

/// What the definitions come to on worked examples.
pub fn worked_examples()
    ensures { WorkedExamples }
{}

/// Which files came as volumes, and which keepers can be brought to hand, on worked examples.
pub fn worked_filling()
    ensures { WorkedFilling }
{}

/// What calls one after another ask and leave, on worked examples.
pub fn worked_calls<S: Alter>()
    ensures { (conn : Held S) (refused : IsRefused S.Store conn conn)
        (fine : IsUnharmed (state S.Store conn)) → WorkedCalls S.Store conn refused fine }
{}

/// Which peers came, and that nobody serves who met none, on worked examples.
pub fn worked_meetings<K: Inbox>()
    ensures { WorkedMeetings K.seen }
{}

/// Where files came as volumes from 1 on, they do after any commands.
pub fn volumes_stay()
    ensures { VolumesStay }
{}

/// Calls one after another over a database whose tables are a store's that stands for a partial
/// run, each under a register of its own, of which any may be refused or cut off by a stop: they
/// are one run of one hub over registers of which each extends the one before, the tables are a
/// store's of the last, and have each file that one of them received.
pub fn calls_are_one<S: Alter>()
    ensures { CallsAreOne S.Store }
{}

/// Tables of schema 1 that stood for a partial run stand for the same hub once they are migrated,
/// and the next conversation can go on from them.
pub fn migrated_stands()
    ensures { MigratedStands }
{}

/// A store's tables, as each call hands them back, and what a stop left of one: `Store::open` under
/// their register answers `Ok` or `Fault`, and never `BadSchema` or `OtherRegister`.
pub fn opens_again<S: Alter>()
    ensures { OpensAgain S.Store }
{}
