//! How a conversation ends and how many requests it answered, which no reply tells.
ghost use Rattle.gaz_keeper.specs.Telling.{IsNotJudging};

use crate::registers::sample;
use crate::wanted::{counts, holds};
use gaz_exchange::{Ended, Served, converse};
use gaz_http::InMemory;
use gaz_hub::Hub;
use gaz_keeper::Inbox;
use gaz_shelf::{MemShelf, Seed};
use std::alloc::Global;
use std::test::Fail;

/// Three questions.
const THREE: &str = "GET /closed HTTP/1.1\r\n\r\nGET /closed HTTP/1.1\r\n\r\n\
    GET /closed HTTP/1.1\r\n\r\n";

/// Three questions, of which the first is to be the last.
const FIRST_CLOSES: &str = "GET /closed HTTP/1.1\r\nConnection: x, Close\r\n\r\n\
    GET /closed HTTP/1.1\r\n\r\nGET /closed HTTP/1.1\r\n\r\n";

/// A question, and then what is no head.
const SECOND_REFUSED: &str = "GET /closed HTTP/1.1\r\n\r\nx\r\n\r\nGET /closed HTTP/1.1\r\n\r\n";

/// A stream, how many of its requests may be answered, how many are, and why it ends.
const ENDINGS: &[(&str, u64, u64, Ended)] = &[
    (THREE, 0, 0, Ended::Most),
    (THREE, 2, 2, Ended::Most),
    (THREE, 3, 3, Ended::Most),
    (THREE, 4, 3, Ended::InputEnd),
    (FIRST_CLOSES, 1, 1, Ended::Most),
    (FIRST_CLOSES, 3, 1, Ended::Closed),
    (SECOND_REFUSED, 3, 2, Ended::Closed),
    ("\r\n", 0, 0, Ended::Most),
    ("\r\n", 1, 0, Ended::InputEnd),
    ("", 1, 0, Ended::InputEnd),
];

fn is_end(found: Ended, wanted: Ended) -> bool {
    match wanted {
        Ended::Most => matches!(found, Ended::Most),
        Ended::Closed => matches!(found, Ended::Closed),
        Ended::InputEnd => matches!(found, Ended::InputEnd),
    }
}

// How a conversation ends that a hub over a keeper holds with a stream.
fn served_over<K: Inbox + Drop>(
    alloc: Global,
    keeper: K,
    said: &str,
    most: u64,
) -> Result<Served, Fail>
    requires { IsNotJudging K.seen keeper }
{
    let mut hub = Hub::new(alloc, sample(alloc)?, keeper);
    let (mut r, mut w) = (InMemory::new(said.as_bytes()), Vec::new(alloc));
    match converse(alloc, &mut r, &mut w, &mut hub, most) {
        Ok(served) => Ok(served),
        Err(_stopped) => Err("it stopped".into()),
    }
}

#[test]
fn a_conversation_ends_as_told(rt: HostRuntime) -> Result<(), Fail> {
    for (said, most, requests, ended) in ENDINGS {
        let keeper = MemShelf::new(rt.alloc(), Seed::of(1));
        let served = served_over(rt.alloc(), keeper, said, *most)?;
        counts(&rt, served.requests, *requests);
        holds(&rt, is_end(served.ended, *ended), "an end");
    }
    Ok(())
}
