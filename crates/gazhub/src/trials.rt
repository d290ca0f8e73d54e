//! Commands one after another, and a connection, as the program's own function answers them in one
//! process.
use crate::desk::Desk;
use crate::obeying::command;
use crate::sample::SAMPLE;
use gaz_ledger::Seed;
use std::test::Fail;

const FIRST: &str = "10,1,1001,1,2024-01-02\n11,I,1,101,1,2001-04-01,\n99,1\n";

const SECOND: &str = "10,1,1001,2,2024-02-01\n15,I,1,101,ENG,High Street,,Arden,Arden\n99,1\n";

const THIRD: &str = "10,1,1001,3,2024-03-01\n\
    21,I,1,42,1,450000,250000,,AR1 2DN,2001-04-01,\n\
    24,I,2,L1,42,ENG,1,101,,,,,Flat 2,12,A,14,,,2001-04-01,\n99,2\n";

const POST: &str = "POST /custodians/1001/volumes/1 HTTP/1.1\r\nHost: hub\r\n\
    Content-Length: 53\r\n\r\n10,1,1001,1,2024-01-02\n11,I,1,101,1,2001-04-01,\n99,1\n";

const APPLIED: &str = "HTTP/1.1 201 Created\r\nContent-Type: application/json\r\n\
    Content-Length: 22\r\n\r\n{\"outcome\":\"applied\"}\n";

/// Commands one after another: the words, the change file that stands there, the exit status, and
/// what is printed.
const COMMANDS: &[(&str, &str, u8, &str)] = &[
    ("status 1001", "", 3, ""),
    ("init", "", 0, "ready\n"),
    ("submit 1001 1 it.csv", FIRST, 0, "new applied\n"),
    ("submit 1001 3 it.csv", THIRD, 1, "new held wants 1001/2\n"),
    (
        "status 1001",
        "",
        0,
        "custodian 1001 judged 1 held 1 wants 1001/2\n",
    ),
    ("submit 1001 2 it.csv", SECOND, 0, "new applied\n"),
    ("submit 1001 3 it.csv", THIRD, 0, "repeat applied\n"),
    (
        "line 42",
        "",
        0,
        "Flat 2, 12A-14 High Street, Arden, AR1 2DN\n",
    ),
    ("line 43", "", 1, "none\n"),
    ("submit 9999 1 it.csv", FIRST, 1, "refused 11\n"),
    ("status 9999", "", 1, "refused 11\n"),
    ("extract 1001 4", "", 1, "none\n"),
    ("init", "", 3, ""),
    ("migrate", "", 0, "current\n"),
    ("sumbit 1001 1 it.csv", "", 2, ""),
];

// The words of a command over the store.
fn words_of(rt: &HostRuntime, line: &str) -> Result<Vec<String>, Fail> {
    let alloc = rt.alloc();
    let (command, more) = line.split_once(' ').unwrap_or((line, ""));
    let places = ["--store", "hub.db", "--register", "hub.toml"];
    let mut words = Vec::new(alloc);
    words.push(String::from_str(alloc, command)?)?;
    for word in places.into_iter().chain(more.split_whitespace()) {
        words.push(String::from_str(alloc, word)?)?;
    }
    Ok(words)
}

// Whether a command at a desk ends so, and prints this.
fn does(
    rt: &HostRuntime,
    desk: &mut Desk,
    line: &str,
    wanted: u8,
    printed: &str,
) -> Result<bool, Fail> {
    let alloc = rt.alloc();
    let words = words_of(rt, line)?;
    let (mut w, mut errors) = (Vec::new(alloc), Vec::new(alloc));
    let status = command(
        desk,
        alloc,
        Some(words.as_slice()),
        Some(Seed::of(1)),
        &mut b"".as_slice(),
        &mut w,
        &mut errors,
    );
    Ok(status == wanted && w.as_slice() == printed.as_bytes())
}

#[test]
fn commands_are_done(rt: HostRuntime) -> Result<(), Fail> {
    let mut desk = Desk::new(rt.alloc(), SAMPLE);
    for (line, change, status, printed) in COMMANDS {
        desk.change = change;
        let is_so = does(&rt, &mut desk, line, *status, printed)?;
        assert!(rt; is_so, "{line}");
    }
    Ok(())
}

#[test]
fn a_connection_is_answered(rt: HostRuntime) -> Result<(), Fail> {
    let mut desk = Desk::new(rt.alloc(), SAMPLE);
    let is_made = does(&rt, &mut desk, "init", 0, "ready\n")?;
    desk.says = Some(POST);
    let line = "serve --port 8080 --connections 1";
    let is_served = does(&rt, &mut desk, line, 0, "listening 127.0.0.1:8080\n")?;
    let is_so = is_made && is_served && desk.told.as_slice() == APPLIED.as_bytes();
    assert!(rt; is_so);
    Ok(())
}
