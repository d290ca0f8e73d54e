//! What each command asks of a hub.
ghost use Rattle.std.specs.Prelude.{◌≡◌, option_map};
ghost use Rattle.gaz_keeper.specs.Telling.{IsNotJudging};
ghost use Rattle.gaz_steps.specs.Step.{Pose};
ghost use Rattle.gaz_commands.specs.Asking.{asks_address, asks_extract, asks_standing};
ghost use Rattle.gaz_commands.specs.Asking.{asks_to_submit};
ghost use Rattle.gaz_commands.specs.Obeying.{IsAnswered, Obeys};

use crate::numbers::{code_named, uprn_named, volume_named};
use crate::printed::PrintedLine;
use crate::said::{CommandFault, Said, turned_away};
use gaz_hub::Hub;
use gaz_keeper::Inbox;
use gaz_steps::{DoorRefusal, Question};

/// Submits a change file, whose bytes are given where it could be read.
///
/// Faults are looked for in this order: the code, the volume, the file, and then what the hub says.
pub fn submit<K: Inbox + Drop>(
    hub: &mut Hub<K>,
    code: &str,
    volume: &str,
    file: Option<&[u8]>,
) -> Said
    requires idle { IsNotJudging K.seen hub.old.keeper }
    ensures obeys { Obeys K.seen (asks_to_submit code.now volume.now
        (option_map (λ bytes. bytes.now) file.entry)) hub.old hub.new result }
    ensures register { hub.new.register ≡ hub.old.register }
{
    let Some(code) = code_named(code) else {
        return turned_away(DoorRefusal::UnknownCustodian);
    };
    let Some(volume) = volume_named(volume) else {
        return turned_away(DoorRefusal::BadVolume);
    };
    let Some(file) = file else {
        return Said::Failed(CommandFault::Unreadable);
    };
    Said::answered(hub.submit(code.number(), volume.number(), file))
}

// Asks a question, and says what is told of it.
fn ask<K: Inbox + Drop>(hub: &mut Hub<K>, question: Question) -> Said
    requires idle { IsNotJudging K.seen hub.old.keeper }
    ensures answered { IsAnswered K.seen (Pose question) hub.old hub.new result }
    ensures register { hub.new.register ≡ hub.old.register }
{
    Said::told(hub.ask(question))
}

/// Says how far a custodian's files are judged; that the custodian isn't known where the code
/// doesn't read.
pub fn status<K: Inbox + Drop>(hub: &mut Hub<K>, code: &str) -> Said
    requires idle { IsNotJudging K.seen hub.old.keeper }
    ensures obeys { Obeys K.seen (asks_standing code.now) hub.old hub.new result }
    ensures register { hub.new.register ≡ hub.old.register }
{
    let Some(code) = code_named(code) else {
        return turned_away(DoorRefusal::UnknownCustodian);
    };
    let code = code.number();
    ask(hub, Question::Stand { code })
}

/// Says the address line of a property; nothing where the UPRN doesn't read.
pub fn line<K: Inbox + Drop>(hub: &mut Hub<K>, uprn: &str) -> Said
    requires idle { IsNotJudging K.seen hub.old.keeper }
    ensures obeys { Obeys K.seen (asks_address uprn.now) hub.old hub.new result }
    ensures register { hub.new.register ≡ hub.old.register }
{
    let Some(uprn) = uprn_named(uprn) else {
        return Said::Line(PrintedLine::Nothing);
    };
    ask(hub, Question::LookUp { uprn })
}

/// Says a custodian's view after a volume, as the text of an extract; that the custodian isn't
/// known where the code doesn't read, then that the volume isn't one where that doesn't.
pub fn extract<K: Inbox + Drop>(hub: &mut Hub<K>, code: &str, volume: &str) -> Said
    requires idle { IsNotJudging K.seen hub.old.keeper }
    ensures obeys { Obeys K.seen (asks_extract code.now volume.now) hub.old hub.new result }
    ensures register { hub.new.register ≡ hub.old.register }
{
    let Some(code) = code_named(code) else {
        return turned_away(DoorRefusal::UnknownCustodian);
    };
    let Some(volume) = volume_named(volume) else {
        return turned_away(DoorRefusal::BadVolume);
    };
    let (code, volume) = (code.number(), volume.number());
    ask(hub, Question::Extract { code, volume })
}
