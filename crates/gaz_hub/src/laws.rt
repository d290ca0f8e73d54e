//! Laws of calls one after another, over any keeper and over a hub as it is seen.
ghost use Rattle.gaz_steps.specs.Found.{EveryStopOver};
ghost use Rattle.gaz_steps.specs.Laws.{CallsMakeRuns, EveryAnswerOver, EveryRunFromOver};
ghost use Rattle.gaz_hub.specs.Seen.{hub_seen};

use gaz_keeper::Inbox;

/// Calls one after another are runs: of a keeper, and of a hub as it is seen with what it
/// remembers, of which the hub's own calls speak. So it is with each law below.
pub fn calls_make_runs<K: Inbox + Drop>()
    ensures keeper { CallsMakeRuns K.seen }
    ensures hub { CallsMakeRuns (hub_seen K.seen) }
{}

/// Whatever commands come, over any keeper that stood for a partial run of files of known
/// custodians, it stands for one, and after a response that settles the board is the standing one.
pub fn every_run_from_over<K: Inbox + Drop>()
    ensures keeper { EveryRunFromOver K.seen }
    ensures hub { EveryRunFromOver (hub_seen K.seen) }
{}

/// Each response that settles, over any such keeper, is the one read off the standing board of the
/// files that are received by then.
pub fn every_answer_over<K: Inbox + Drop>()
    ensures keeper { EveryAnswerOver K.seen }
    ensures hub { EveryAnswerOver (hub_seen K.seen) }
{}

/// What a stop leaves after whatever commands, of any keeper of which it left just a partial run
/// before: a partial run again, which the next hub can begin with. Its files are those that were
/// received, and one more at most, of a submission that was answered 51 and since which nothing has
/// changed, as long as nobody else wrote on what it keeps and no failure shut it.
pub fn every_stop_over<K: Inbox + Drop>()
    ensures keeper { EveryStopOver K.seen }
    ensures hub { EveryStopOver (hub_seen K.seen) }
{}
