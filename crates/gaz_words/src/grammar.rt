//! Which words there are, and what help says of each argument.
ghost use Rattle.std.specs.Prelude.{IfOk, codes};
ghost use Rattle.clap.specs.Words.{App, Rule, with_rule};
ghost use Rattle.gaz_words.specs.Grammar.{IsArgument, IsCommand};
ghost use Rattle.gaz_words.specs.Grammar as spec;

use crate::help;
use clap::builder::ValueParser;
use clap::{Arg, ArgAction, Command};
use std::alloc::{AllocError, Global};

// The greatest port.
const MOST_PORT: u64 = 65_535;

// The most connections.
const MOST_CONNECTIONS: u64 = 1_000_000;

// A word that stands in its place, and has to.
fn word<'a>(alloc: Global, name: &'a str, help: &'a str) -> Arg<'a>
    ensures { IsArgument (spec.word name.entry.now) result }
{
    Arg::new(alloc, name)
        .required(true)
        .action(ArgAction::Set)
        .help(help)
}

// A path behind a word of its own, which has to be there.
fn path<'a>(alloc: Global, name: &'a str, shown: &'a str, help: &'a str) -> Arg<'a>
    ensures { IsArgument (spec.path name.entry.now) result }
{
    word(alloc, name, help).long(name).value_name(shown)
}

// A number behind a word of its own, which has to be there.
fn number<'a>(alloc: Global, name: &'a str, shown: &'a str, help: &'a str, most: u64) -> Arg<'a>
    ensures { IsArgument (spec.number name.entry.now most) result }
{
    path(alloc, name, shown, help).value_parser(ValueParser::Unsigned(0, most))
}

// A command with one more argument.
fn takes<'a>(
    command: Result<Command<'a>, AllocError>,
    arg: Arg<'a>,
) -> Result<Command<'a>, AllocError>
    ensures { (app : App) (rule : Rule) → IfOk command.entry (IsCommand app)
        → IsArgument rule arg.entry → IfOk result (IsCommand (with_rule app rule)) }
{
    command?.arg(arg)
}

// A command over a store.
fn over_store<'a>(
    alloc: Global,
    name: &'a str,
    about: &'a str,
    example: &'a str,
) -> Result<Command<'a>, AllocError>
    ensures { IfOk result (IsCommand (spec.over_store name.entry.now)) }
{
    let command = Command::new(alloc, name).about(about).after_help(example);
    let store = path(alloc, "store", "STORE", "The store's file");
    let register = path(
        alloc,
        "register",
        "REGISTER",
        "The register's file, in TOML",
    );
    takes(takes(Ok(command), store), register)
}

fn code<'a>(alloc: Global) -> Arg<'a>
    ensures { IsArgument (spec.word (codes "CODE")) result }
{
    word(alloc, "CODE", "The custodian's code, 1 to 9999")
}

fn volume<'a>(alloc: Global) -> Arg<'a>
    ensures { IsArgument (spec.word (codes "VOLUME")) result }
{
    word(alloc, "VOLUME", "The volume, 1 to 999999")
}

fn init<'a>(alloc: Global) -> Result<Command<'a>, AllocError>
    ensures { IfOk result (IsCommand (spec.over_store (codes "init"))) }
{
    over_store(alloc, "init", help::INIT, help::INIT_EXAMPLE)
}

fn submit<'a>(alloc: Global) -> Result<Command<'a>, AllocError>
    ensures { IfOk result (IsCommand spec.submit) }
{
    let command = over_store(alloc, "submit", help::SUBMIT, help::SUBMIT_EXAMPLE);
    let command = takes(takes(command, code(alloc)), volume(alloc));
    takes(command, word(alloc, "FILE", "The change file, in CSV"))
}

fn status<'a>(alloc: Global) -> Result<Command<'a>, AllocError>
    ensures { IfOk result (IsCommand spec.status) }
{
    let command = over_store(alloc, "status", help::STATUS, help::STATUS_EXAMPLE);
    takes(command, code(alloc))
}

fn line<'a>(alloc: Global) -> Result<Command<'a>, AllocError>
    ensures { IfOk result (IsCommand spec.line) }
{
    let uprn = word(alloc, "UPRN", "The property's number, of at most 12 digits");
    takes(
        over_store(alloc, "line", help::LINE, help::LINE_EXAMPLE),
        uprn,
    )
}

fn extract<'a>(alloc: Global) -> Result<Command<'a>, AllocError>
    ensures { IfOk result (IsCommand spec.extract) }
{
    let command = over_store(alloc, "extract", help::EXTRACT, help::EXTRACT_EXAMPLE);
    takes(takes(command, code(alloc)), volume(alloc))
}

fn port<'a>(alloc: Global) -> Arg<'a>
    ensures { IsArgument (spec.number (codes "port") spec.most_port) result }
{
    let help = "The port; for 0 the system chooses one";
    number(alloc, "port", "PORT", help, MOST_PORT)
}

fn connections<'a>(alloc: Global) -> Arg<'a>
    ensures { IsArgument (spec.number (codes "connections") spec.most_connections) result }
{
    let help = "How many connections are answered";
    number(alloc, "connections", "CONNECTIONS", help, MOST_CONNECTIONS)
}

fn serve<'a>(alloc: Global) -> Result<Command<'a>, AllocError>
    ensures { IfOk result (IsCommand spec.serve) }
{
    let command = over_store(alloc, "serve", help::SERVE, help::SERVE_EXAMPLE);
    takes(takes(command, port(alloc)), connections(alloc))
}

fn extend<'a>(alloc: Global) -> Result<Command<'a>, AllocError>
    ensures { IfOk result (IsCommand spec.extend) }
{
    let help = "The file of the register that it grows to, in TOML";
    let command = over_store(alloc, "extend", help::EXTEND, help::EXTEND_EXAMPLE);
    takes(command, path(alloc, "grown", "GROWN", help))
}

fn migrate<'a>(alloc: Global) -> Result<Command<'a>, AllocError>
    ensures { IfOk result (IsCommand (spec.over_store (codes "migrate"))) }
{
    over_store(alloc, "migrate", help::MIGRATE, help::MIGRATE_EXAMPLE)
}

// The program without a command.
fn program<'a>(alloc: Global) -> Result<Command<'a>, AllocError>
    ensures { IfOk result (IsCommand spec.program) }
{
    let program = Command::new(alloc, "gazhub").no_binary_name(true);
    let named = program.bin_name("gazhub")?;
    Ok(named.version("0.1.0").about(help::ABOUT))
}

// The program with one more command.
fn with<'a>(
    program: Result<Command<'a>, AllocError>,
    command: Result<Command<'a>, AllocError>,
) -> Result<Command<'a>, AllocError>
    ensures { (whole app : App) → IfOk program.entry (IsCommand whole)
        → IfOk command.entry (IsCommand app)
        → IfOk result (IsCommand (spec.with_command whole app)) }
{
    let command = command?;
    program?.subcommand(command)
}

// The program with what makes a store and what asks one.
fn with_asking<'a>(alloc: Global) -> Result<Command<'a>, AllocError>
    ensures { IfOk result (IsCommand spec.asking) }
{
    let play = Command::new(alloc, "play")
        .about(help::PLAY)
        .after_help(help::PLAY_EXAMPLE);
    let program = with(program(alloc), Ok(play));
    let program = with(program, init(alloc));
    let program = with(program, submit(alloc));
    let program = with(program, status(alloc));
    with(with(program, line(alloc)), extract(alloc))
}

/// All words that the program takes, behind its name.
pub fn grammar<'a>(alloc: Global) -> Result<Command<'a>, AllocError>
    ensures { IfOk result (IsCommand spec.gazhub) }
{
    let program = with(with_asking(alloc), serve(alloc));
    with(with(program, extend(alloc)), migrate(alloc))
}
