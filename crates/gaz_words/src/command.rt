ghost use Rattle.std.specs.Prelude.{◌≡◌, [], ◌∷◌, codes, map, string_bytes};
ghost use Rattle.clap.specs.Words.{found_of, rows_of};
ghost use Rattle.gaz_words.specs.Grammar.{most_connections, most_port};
ghost use Rattle.gaz_words.specs.Meaning.{AreAt, HasNumber, HaveWords, IsAt, IsCall, IsComplete};
ghost use Rattle.gaz_words.specs.Meaning.{IsNamed, IsNumberAt, Means};
ghost use Rattle.gaz_words.specs.Words as spec;

use crate::grammar::grammar;
use clap::{ArgMatches, Error};
use std::alloc::Global;

/// Where the files of a command stand.
#[derive(Clone, Copy)]
pub struct Places<'a> {
    /// The path of the store's file.
    pub store: &'a str,
    /// The path of the register's file.
    pub register: &'a str,
}

/// What a hub is asked. Codes, volumes and UPRNs are the texts that were written, whether they are
/// numbers or not.
#[derive(Clone, Copy)]
pub enum Call<'a> {
    /// A file is submitted as a custodian's volume.
    Submit {
        code: &'a str,
        volume: &'a str,
        /// The path of the change file.
        file: &'a str,
    },
    /// How far a custodian's files are judged.
    Status {
        code: &'a str,
    },
    /// The address line of a property.
    Line {
        uprn: &'a str,
    },
    /// A custodian's view after a volume.
    Extract {
        code: &'a str,
        volume: &'a str,
    },
}

/// Where connections are answered, and how many.
#[derive(Clone, Copy)]
pub struct Serving {
    /// 0 to 65535; for 0 the system chooses one.
    pub port: u16,
    /// 0 to 1,000,000.
    pub connections: u64,
}

/// What the words ask for.
#[derive(Clone, Copy)]
pub enum Command<'a> {
    /// A conversation on standard input and output.
    Play,
    /// A new store.
    Init(Places<'a>),
    /// A hub over a store is asked.
    Ask(Places<'a>, Call<'a>),
    /// Connections are answered over a store.
    Serve(Places<'a>, Serving),
    /// A store's register grows to the one whose file stands at this path.
    Extend(Places<'a>, &'a str),
    /// A store of schema 1 becomes one of schema 2.
    Migrate(Places<'a>),
}

// The word that was written for an argument.
fn word<'a>(given: &ArgMatches<'a>, name: &str) -> &'a str
    requires { HaveWords (rows_of (found_of given.now)) (name.now ∷ []) }
    ensures { IsAt (rows_of (found_of given.now)) name.now result.now }
{
    match given.get_str(name) {
        Some(word) => word,
        None => unreachable!(),
    }
}

fn places_of<'a>(given: &ArgMatches<'a>) -> Places<'a>
    requires { HaveWords (rows_of (found_of given.now)) (codes "store" ∷ codes "register" ∷ []) }
    ensures { AreAt (rows_of (found_of given.now)) result }
{
    Places {
        store: word(given, "store"),
        register: word(given, "register"),
    }
}

fn submitting<'a>(given: &ArgMatches<'a>) -> Call<'a>
    requires { HaveWords (rows_of (found_of given.now))
        (codes "CODE" ∷ codes "VOLUME" ∷ codes "FILE" ∷ []) }
    ensures { IsCall (codes "submit") (rows_of (found_of given.now)) result }
{
    Call::Submit {
        code: word(given, "CODE"),
        volume: word(given, "VOLUME"),
        file: word(given, "FILE"),
    }
}

fn extracting<'a>(given: &ArgMatches<'a>) -> Call<'a>
    requires { HaveWords (rows_of (found_of given.now)) (codes "CODE" ∷ codes "VOLUME" ∷ []) }
    ensures { IsCall (codes "extract") (rows_of (found_of given.now)) result }
{
    Call::Extract {
        code: word(given, "CODE"),
        volume: word(given, "VOLUME"),
    }
}

fn port_in(given: &ArgMatches<'_>) -> u16
    requires { HasNumber (rows_of (found_of given.now)) (codes "port") most_port }
    ensures { IsNumberAt (rows_of (found_of given.now)) (codes "port") result }
{
    match given.get_one::<u16>("port") {
        Some(port) => port,
        None => unreachable!(),
    }
}

fn connections_in(given: &ArgMatches<'_>) -> u64
    requires { HasNumber (rows_of (found_of given.now)) (codes "connections") most_connections }
    ensures { IsNumberAt (rows_of (found_of given.now)) (codes "connections") result }
{
    match given.get_one::<u64>("connections") {
        Some(connections) => connections,
        None => unreachable!(),
    }
}

// The command of this name, of the words behind it.
fn named<'a>(name: &str, given: &ArgMatches<'a>) -> Command<'a>
    requires { IsComplete name.now (rows_of (found_of given.now)) }
    ensures { IsNamed name.now (rows_of (found_of given.now)) result }
{
    match name {
        "play" => Command::Play,
        "init" => Command::Init(places_of(given)),
        "submit" => Command::Ask(places_of(given), submitting(given)),
        "status" => {
            let code = word(given, "CODE");
            Command::Ask(places_of(given), Call::Status { code })
        }
        "line" => {
            let uprn = word(given, "UPRN");
            Command::Ask(places_of(given), Call::Line { uprn })
        }
        "extract" => Command::Ask(places_of(given), extracting(given)),
        "serve" => {
            let serving = Serving {
                port: port_in(given),
                connections: connections_in(given),
            };
            Command::Serve(places_of(given), serving)
        }
        "extend" => Command::Extend(places_of(given), word(given, "grown")),
        "migrate" => Command::Migrate(places_of(given)),
        _ => unreachable!(),
    }
}

/// Whether the words behind the program's name are none, or the one word `play`: they ask for a
/// conversation.
pub fn asks_play(words: &[String]) -> bool
    ensures { result ≡ spec.asks_play (map string_bytes words.now) }
{
    match words {
        [] => true,
        [word] => word.as_str() == "play",
        _ => false,
    }
}

/// What the words behind the program's name ask for; a conversation where they name no command.
///
/// An error is a fault of usage, or help or the version that was asked for: its `Display` is the
/// text for the user, and `exit_code` the exit status. Which word goes to which argument, and which
/// kind of error comes, is what `clap` says of the commands in `specs/Grammar.antt`.
pub fn read<'a>(alloc: Global, words: &'a [String]) -> Result<Command<'a>, Error>
    ensures { Means (map string_bytes words.now) result }
{
    let given = grammar(alloc)?.try_get_matches_from(words)?;
    match given.subcommand() {
        Some((name, given)) => Ok(named(name, given)),
        None => Ok(Command::Play),
    }
}
