//! What the program does at its words, over a reader and two writers that are lent.
ghost use Rattle.std.specs.Prelude.{◌≡◌, is_some, map, option_map, string_bytes, true};
ghost use Rattle.std.specs.Io.KnownBytes.{Keeps};
ghost use Rattle.gaz_exchange.specs.Conversing.{transfer};
ghost use Rattle.gazhub.specs.Commands.{Commands, Ends, EndsAt, EndsByMeaning, IsExplained};
ghost use Rattle.gazhub.specs.Commands.{IsFinished, IsShown, IsTold, Reports, ending_of};
ghost use Rattle.gazhub.specs.Endings.{is_silent, line_of};

use crate::attending::serve;
use crate::commands::{ask, extend, init, migrate};
use crate::ending::Ending;
use crate::files::NoHub;
use crate::program::{MOST_OF_PLAY, play};
use crate::sample::SAMPLE;
use crate::site::Site;
use clap::Error;
use clap::error::ErrorKind;
use gaz_commands::{Said, print};
use gaz_http::write_all;
use gaz_ledger::Seed;
use gaz_words::{Command, asks_play, read};
use std::alloc::Global;
use std::io::{Read, Write};

// Prints what a command says.
fn tell<W: Write>(w: &mut W, said: &Said) -> Ending
    ensures silent { is_silent result ≡ true → Keeps (W.contents w.old) (W.contents w.new) }
    ensures told { IsTold (W.contents w.old) (W.contents w.new) said.now result }
{
    if let Said::Failed(fault) = said {
        return Ending::Failed(*fault);
    }
    if !print(w, said) {
        return Ending::WriteFault;
    }
    if said.is_done() {
        Ending::Done
    } else {
        Ending::NotDone
    }
}

// Prints help, or the version.
fn show<W: Write>(w: &mut W, help: &Error) -> Ending
    ensures { IsShown result }
{
    if write!(w, "{help}").is_ok() && w.flush().is_ok() {
        Ending::Done
    } else {
        Ending::WriteFault
    }
}

// Prints help or the version where they were asked for, or gives what is said of a fault of usage.
fn explain<W: Write>(w: &mut W, error: Error) -> Result<Ending, Error>
    ensures explained { IsExplained error.kind (ending_of result) }
    ensures silent { is_silent (ending_of result) ≡ true
        → Keeps (W.contents w.old) (W.contents w.new) }
{
    match error.kind() {
        ErrorKind::OutOfMemory => Ok(Ending::Memory),
        ErrorKind::DisplayHelp | ErrorKind::DisplayVersion => Ok(show(w, &error)),
        _ => Err(error),
    }
}

// Prints what came of a command over a store.
fn finish<W: Write>(w: &mut W, said: Result<Said, NoHub>) -> Ending
    ensures silent { is_silent result ≡ true → Keeps (W.contents w.old) (W.contents w.new) }
    ensures finished { IsFinished (W.contents w.old) (W.contents w.new) said result }
{
    match said {
        Ok(said) => tell(w, &said),
        Err(why) => Ending::NoHub(why),
    }
}

// Does what a command asks.
fn obey<S: Site, R: Read, W: Write>(
    site: &mut S,
    alloc: Global,
    seed: Seed,
    command: Command<'_>,
    r: &mut R,
    w: &mut W,
) -> Ending
    ensures { EndsAt S.done S.Medium.Disk SAMPLE.now MOST_OF_PLAY site.old site.new
        (transfer R.remaining W.contents r.old r.new w.old w.new) command.entry result }
{
    match command {
        Command::Play => play(alloc, seed, r, w),
        Command::Init(places) => finish(w, init(site, alloc, seed, places)),
        Command::Ask(places, call) => finish(w, ask(site, alloc, seed, places, call)),
        Command::Serve(places, serving) => serve(site, alloc, seed, places, serving, w),
        Command::Extend(places, grown) => finish(w, extend(site, alloc, seed, places, grown)),
        Command::Migrate(places) => finish(w, migrate(site, alloc, seed, places)),
    }
}

// Does what the words mean, or gives what is said of their usage.
fn follow<S: Site, R: Read, W: Write>(
    site: &mut S,
    alloc: Global,
    words: &[String],
    seed: Seed,
    r: &mut R,
    w: &mut W,
) -> Result<Ending, Error>
    ensures { EndsByMeaning S.done S.Medium.Disk SAMPLE.now MOST_OF_PLAY site.old site.new
        (transfer R.remaining W.contents r.old r.new w.old w.new)
        (map string_bytes words.now) (ending_of result) }
{
    match read(alloc, words) {
        Ok(command) => Ok(obey(site, alloc, seed, command, r, w)),
        Err(error) => explain(w, error),
    }
}

// Does what the words ask, or gives what is said of their usage.
fn begin<S: Site, R: Read, W: Write>(
    site: &mut S,
    alloc: Global,
    words: Option<&[String]>,
    seed: Option<Seed>,
    r: &mut R,
    w: &mut W,
) -> Result<Ending, Error>
    ensures { Ends S.done S.Medium.Disk SAMPLE.now MOST_OF_PLAY site.old site.new
        (transfer R.remaining W.contents r.old r.new w.old w.new)
        (option_map (λ all. map string_bytes all.now) words.entry) (is_some seed)
        (ending_of result) }
{
    let Some(words) = words else {
        return Ok(Ending::ReadFault);
    };
    let Some(seed) = seed else {
        return Ok(Ending::ReadFault);
    };
    // Looked for first, so that a conversation takes no memory for the words.
    if asks_play(words) {
        return Ok(play(alloc, seed, r, w));
    }
    follow(site, alloc, words, seed, r, w)
}

/// Says how the program ends, where there is something to say. What can't be said is lost.
pub fn report<E: Write>(errors: &mut E, ending: Ending)
    ensures { Reports (E.contents errors.old) (E.contents errors.new) (line_of ending) }
{
    let _whole = write_all(errors, ending.line().as_bytes());
}

/// Does what the words ask: holds a conversation where there are none, or `play` alone; makes a
/// store, asks a hub over one, answers connections over it, lets its register grow, or migrates it.
/// Gives the exit status.
///
/// `words` are those behind the program's name, none where they can't be read; `seed` is none where
/// the system gives no random bytes. The command is the one that the words mean, and the status 2
/// says that they mean none. Where the site knows what was done at it, it is said which files were
/// read and opened, in which order, and that what is printed is what a hub over them answered.
pub fn command<S: Site, R: Read, W: Write, E: Write>(
    site: &mut S,
    alloc: Global,
    words: Option<&[String]>,
    seed: Option<Seed>,
    r: &mut R,
    w: &mut W,
    errors: &mut E,
) -> u8
    ensures { Commands S.done S.Medium.Disk SAMPLE.now MOST_OF_PLAY
        (option_map (λ all. map string_bytes all.now) words.entry) (is_some seed)
        site.old site.new (transfer R.remaining W.contents r.old r.new w.old w.new)
        (E.contents errors.old) (E.contents errors.new) result }
{
    match begin(site, alloc, words, seed, r, w) {
        Ok(ending) => {
            report(errors, ending);
            ending.status()
        }
        Err(usage) => {
            let _told = write!(errors, "{usage}");
            Ending::Usage.status()
        }
    }
}
