//! A register that grows: whoever waited for a custodian that comes by it is judged then.
ghost use Rattle.gaz_keeper.specs.Telling.{IsNotJudging};

use crate::registers::{grown, sample};
use crate::wanted::holds;
use gaz_hub::Hub;
use gaz_ids::{Code, Volume};
use gaz_keeper::Inbox;
use gaz_shelf::{MemShelf, Seed};
use gaz_steps::{Answer, DoorRefusal, Outcome, Refusal};
use std::alloc::Global;
use std::test::Fail;

/// The first file of custodian 1002, which rests on that of 1004.
const WAITING: &[u8] = b"10,1,1002,1,2024-01-02\n90,1004,1\n11,I,1,201,1,2001-04-01,\n99,1\n";

/// The first file of custodian 1004.
const AWAITED: &[u8] = b"10,1,1004,1,2024-01-02\n11,I,1,400,1,2001-04-01,\n99,1\n";

fn is_held_for(answer: Answer, code: u64, volume: u64) -> bool {
    let Some(custodian) = Code::of(code) else {
        return false;
    };
    let Some(volume) = Volume::of(volume) else {
        return false;
    };
    answer == Answer::New(Outcome::Held { custodian, volume })
}

fn is_refused_at_door(answer: Answer, why: DoorRefusal) -> bool {
    answer == Answer::Refused(Refusal::Door(why))
}

// Whether the awaited file is received and applied, and so is then the one that waited.
fn are_applied(comes: Answer, waited: Answer) -> bool {
    comes == Answer::New(Outcome::Applied) && waited == Answer::Repeat(Outcome::Applied)
}

// Whether a hub over a keeper, whose register grows between two files, holds the one that waits,
// refuses the awaited one before and takes it afterwards.
fn is_judged_over<K: Inbox + Drop>(alloc: Global, keeper: K) -> Result<bool, Fail>
    requires { IsNotJudging K.seen keeper }
{
    let mut hub = Hub::new(alloc, sample(alloc)?, keeper);
    let waits = hub.submit(1002, 1, WAITING);
    let unknown = hub.submit(1004, 1, AWAITED);
    let (mut register, keeper) = hub.into_parts();
    register.extend(grown(alloc)?)?;
    let mut hub = Hub::new(alloc, register, keeper);
    let comes = hub.submit(1004, 1, AWAITED);
    let waited = hub.submit(1002, 1, WAITING);
    Ok(
        is_held_for(waits, 1004, 1)
            && is_refused_at_door(unknown, DoorRefusal::UnknownCustodian)
            && are_applied(comes, waited),
    )
}

#[test]
fn a_register_grows_over_maps(rt: HostRuntime) -> Result<(), Fail> {
    let keeper = MemShelf::new(rt.alloc(), Seed::of(1));
    holds(&rt, is_judged_over(rt.alloc(), keeper)?, "as it grows");
    Ok(())
}
