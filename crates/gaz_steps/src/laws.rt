//! Laws over the definitions alone: whichever ready file is judged first, whatever commands come.
ghost use Rattle.gaz_steps.specs.Answers.{EveryAnswer};
ghost use Rattle.gaz_steps.specs.Chains.{ChainsAreShort, ChainsGrow, ChainsOfBoards, FindsHolders};
ghost use Rattle.gaz_steps.specs.Chains.{OneChain, UnallottedStay};
ghost use Rattle.gaz_steps.specs.Growth.{AnswersStay, EqualGrown, EveryGrownRun, GrowthKeeps};
ghost use Rattle.gaz_steps.specs.Growth.{GrowthStands};
ghost use Rattle.gaz_steps.specs.Growth.{PeriodsAreOneRun};
ghost use Rattle.gaz_steps.specs.Laws.{AllSound, EachIsTold};
ghost use Rattle.gaz_steps.specs.Owners.{OwnersAlone};
ghost use Rattle.gaz_steps.specs.ReadBack.{BoardsReadBack};
ghost use Rattle.gaz_steps.specs.Readings.{EqualAnswers, ExtractsStay, OneHolder};
ghost use Rattle.gaz_steps.specs.Runs.{EqualReceived, EveryRepeat, EveryRun, EveryRunFrom};
ghost use Rattle.gaz_steps.specs.Runs.{JudgementsStay};
ghost use Rattle.gaz_steps.specs.Standing.{AnyOrder, MoreFiles, StandingIsSettled};

use gaz_keeper::Inbox;

/// Every partial board with nothing ready is the standing one, whichever ready file was judged
/// first.
pub fn any_order()
    ensures { AnyOrder }
{}

/// The standing board is itself reached by judging ready files one at a time, and nothing is ready
/// on it.
pub fn standing_is_settled()
    ensures { StandingIsSettled }
{}

/// With more files each custodian's judgements go on from where they were.
pub fn more_files()
    ensures { MoreFiles }
{}

/// Whatever commands come to a hub whose board is partial, what is received is what was there and
/// then what came first, and the board stays partial over it; after a response that settles it is
/// the standing one.
pub fn every_run_from()
    ensures { EveryRunFrom }
{}

/// Each response of such a hub that settles is the one read off the standing board of the files
/// that are received by then.
pub fn every_answer()
    ensures { EveryAnswer }
{}

/// Whatever commands come to a hub that begins with nothing, what is received is what came first,
/// and the board is partial over it; after a response that settles it is the standing one.
pub fn every_run()
    ensures { EveryRun }
{}

/// Where all was settled, an exact repeat changes nothing, and is answered by the outcome that
/// stands.
pub fn every_repeat()
    ensures { EveryRepeat }
{}

/// A judgement once on the board is on every later board at its place.
pub fn judgements_stay()
    ensures { JudgementsStay }
{}

/// Two runs that began at partial boards and end settled and with equal received sets leave equal
/// boards, whatever came and in whatever order.
pub fn equal_received()
    ensures { EqualReceived }
{}

/// Under a register that grew the received files are of custodians that it knows, a partial board
/// stays one, and the standing board is the same; with more files it goes on from there.
pub fn growth_keeps()
    ensures { GrowthKeeps }
{}

/// A keeper that stood for a partial run stands for one under a register that grew.
pub fn growth_stands<K: Inbox + Drop>()
    ensures { GrowthStands K.seen }
{}

/// Under a register that grew whoever was let in is let in, and on a partial board whoever asks of
/// files of custodians that were known before is answered the same.
pub fn growth_answers()
    ensures { AnswersStay }
{}

/// Whatever commands come, and however often the register grows between them, what is received is
/// what was there and then what came first, the board stays partial over it, and after a response
/// that settles it is the standing one; each such response is the one read off the standing board of
/// the files that are received by then.
pub fn every_grown_run()
    ensures { EveryGrownRun }
{}

/// Two hubs that end settled under one register and with equal received sets are equal, whatever
/// came in whatever order, and whenever their registers grew.
pub fn equal_grown()
    ensures { EqualGrown }
{}

/// Periods that are all under one register, as calls under it have, are one run under it.
pub fn periods_are_one_run()
    ensures { PeriodsAreOneRun }
{}

/// Every view of a partial board is sound.
pub fn all_sound()
    ensures { AllSound }
{}

/// On a board on which nothing is ready each received file has an outcome, and a hub that is asked
/// for one tells nothing only where nothing was received.
pub fn each_is_told()
    ensures { EachIsTold }
{}

/// Two hubs that began at any partial boards and received the same give the same answer to each
/// question that both answer, whatever came and in whatever order.
pub fn equal_answers()
    ensures { EqualAnswers }
{}

/// The extract of a volume that is reached stays, with more files and after every step.
pub fn extracts_stay()
    ensures { ExtractsStay }
{}

/// Each item of each view of a partial board is such as the table of fields allows, and so each
/// extract of the board, read as rows, gives its view back.
pub fn boards_read_back()
    ensures { BoardsReadBack }
{}

/// A property stands in the last view of one custodian at most, on every partial board.
pub fn one_holder()
    ensures { OneHolder }
{}

/// On every partial board each number in a custodian's blocks has one chain, and who holds it in
/// its last view is the chain's holder, whatever volumes the files rest on.
pub fn one_chain()
    ensures { OneChain }
{}

/// A board's chain of a number begins that of every board that follows it.
pub fn chains_of_boards()
    ensures { ChainsOfBoards }
{}

/// With more files the same became of a number on a board, and its chain goes on.
pub fn chains_grow()
    ensures { ChainsGrow }
{}

/// On a partial board, asking one last view after another finds the holder.
pub fn finds_holders()
    ensures { FindsHolders }
{}

/// A chain has at most as many custodians as there are hops, and the first one.
pub fn chains_are_short()
    ensures { ChainsAreShort }
{}

/// On every partial board what is in nobody's blocks was never released, adopted or held.
pub fn unallotted_stay()
    ensures { UnallottedStay }
{}

/// On every partial board only the holder of a property's number has it, and what that one says is
/// what a look-up finds.
pub fn owners_alone()
    ensures { OwnersAlone }
{}
