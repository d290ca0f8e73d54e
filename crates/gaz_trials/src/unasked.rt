//! Calls that may answer want of memory and that no program here makes, or whose answer it passes
//! over: with ample memory each answers what is right.
ghost use Rattle.gaz_keeper.specs.Telling.{IsNotJudging};

use crate::registers::sample;
use crate::wanted::holds;
use gaz_addressable::Object;
use gaz_extract::lookup;
use gaz_hub::Hub;
use gaz_ids::Uprn;
use gaz_keeper::Inbox;
use gaz_shelf::{MemShelf, Seed};
use std::alloc::Global;
use std::test::Fail;

/// The five fields of objects, as they are written.
const OBJECTS: &[[&str; 5]] = &[
    ["12", "A", "14", "", ""],
    ["14", "", "", "", ""],
    ["9999", "Z", "", "", "Annexe"],
    ["", "", "", "", "Flat 2"],
    ["1", "B", "1", "C", "Flat 2"],
];

// Whether the fields of an object are those that it is read from.
fn come_back(alloc: Global, fields: [&str; 5]) -> Result<bool, Fail> {
    let [start, suffix, end, end_suffix, text] = fields.map(|field| field.as_bytes());
    let wanted = [start, suffix, end, end_suffix, text];
    let object = Object::read(alloc, wanted)?;
    let found = object.fields(alloc)?;
    for at in 0..5 {
        if found[at].as_slice() != wanted[at] {
            return Ok(false);
        }
    }
    Ok(true)
}

#[test]
fn objects_give_their_fields_back(rt: HostRuntime) -> Result<(), Fail> {
    for fields in OBJECTS {
        holds(&rt, come_back(rt.alloc(), *fields)?, fields[0]);
    }
    Ok(())
}

/// A street with a flat.
const FILE: &str = "10,1,1001,1,2024-01-02\n11,I,1,101,1,2001-04-01,\n\
    15,I,2,101,ENG,High Street,,Arden,Arden\n\
    21,I,3,42,1,450000,250000,,AR1 2DN,2001-04-01,\n\
    24,I,4,L1,42,ENG,1,101,,,,,Flat 2,12,A,14,,,2001-04-01,\n99,4\n";

// The line of a property, looked up in a keeper whose hub took that file and then settled.
fn line_after<K: Inbox + Drop>(alloc: Global, keeper: K) -> Result<String, Fail>
    requires { IsNotJudging K.seen keeper }
{
    let mut hub = Hub::new(alloc, sample(alloc)?, keeper);
    hub.submit(1001, 1, FILE.as_bytes());
    hub.settle()?;
    let (register, mut keeper) = hub.into_parts();
    let uprn = Uprn::of(42).ok_or("no number")?;
    let found = lookup(alloc, &mut keeper, &register, uprn)?.ok_or("nothing found")?;
    let line = found.line.ok_or("no line")?;
    Ok(String::from_str(alloc, line.as_str())?)
}

#[test]
fn a_hub_settles_and_a_property_is_looked_up(rt: HostRuntime) -> Result<(), Fail> {
    let line = line_after(rt.alloc(), MemShelf::new(rt.alloc(), Seed::of(1)))?;
    let is_so = line.as_str() == "Flat 2, 12A-14 High Street, Arden, AR1 2DN";
    holds(&rt, is_so, &line);
    Ok(())
}
