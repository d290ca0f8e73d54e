//! What the definitions come to on worked examples, most of them with one that is refused.
ghost use Rattle.gaz_steps.specs.WorkedAnswers.{WorkedAnswers};
ghost use Rattle.gaz_steps.specs.WorkedBases.{WorkedBases};
ghost use Rattle.gaz_steps.specs.WorkedBoards.{WorkedBoards};
ghost use Rattle.gaz_steps.specs.WorkedChains.{WorkedChains};
ghost use Rattle.gaz_steps.specs.WorkedFound.{WorkedFound};
ghost use Rattle.gaz_steps.specs.WorkedGrowth.{WorkedGrowth};
ghost use Rattle.gaz_steps.specs.WorkedOwners.{WorkedOwners};
ghost use Rattle.gaz_steps.specs.WorkedReadings.{WorkedReadings};
ghost use Rattle.gaz_steps.specs.WorkedRuns.{WorkedRuns};
ghost use Rattle.gaz_steps.specs.WorkedSteps.{WorkedSteps};
ghost use Rattle.gaz_steps.specs.WorkedStops.{WorkedStops};

use gaz_keeper::Inbox;

/// What was received, who is ready, and which boards come next, on worked examples.
pub fn worked_boards()
    ensures { WorkedBoards }
{}

/// A file that is applied and one that rests on it, on worked examples.
pub fn worked_bases()
    ensures { WorkedBases }
{}

/// What judging comes to and what custodians are told, on worked examples.
pub fn worked_answers()
    ensures { WorkedAnswers }
{}

/// Which steps a hub may take, and which it may not, on worked examples.
pub fn worked_steps()
    ensures { WorkedSteps }
{}

/// Which runs a hub may go through, and what holds after them, on worked examples.
pub fn worked_runs()
    ensures { WorkedRuns }
{}

/// What is looked up, extracted and listed, and what isn't, on worked examples.
pub fn worked_readings()
    ensures { WorkedReadings }
{}

/// Who can have a property, and which content a hub may have, on worked examples.
pub fn worked_owners()
    ensures { WorkedOwners }
{}

/// What becomes of a number in files, and who is asked for it, on worked examples.
pub fn worked_chains()
    ensures { WorkedChains }
{}

/// What the definitions on a register that grows come to on worked examples.
pub fn worked_growth()
    ensures { WorkedGrowth }
{}

/// What a stop may leave of a hub, and what it may not, on worked examples.
pub fn worked_stops()
    ensures { WorkedStops }
{}

/// What a call, or calls one after another, leave of a keeper that is stopped, and what is found
/// then, on worked examples, whatever else is so of the keeper.
pub fn worked_found<K: Inbox + Drop>()
    ensures { WorkedFound K.seen }
{}
