//! What is said of the hub's answers.
ghost use Rattle.std.specs.Prelude.{◌≡◌};
ghost use Rattle.gaz_commands.specs.Saying.{error_line, is_said_done, said_address, said_of};
ghost use Rattle.gaz_commands.specs.Saying.{said_of_told, said_refused, said_told};

use crate::printed::PrintedLine;
use gaz_extract::AddressLine;
use gaz_steps::{Answer, DoorRefusal, ExtractText, Refusal, Told};

/// A fault, which standard error names.
#[derive(Clone, Copy, PartialEq, Eq)]
pub enum CommandFault {
    /// The change file can't be read.
    Unreadable,
    /// The file wasn't received by it, or the question wasn't answered: memory or the store failed.
    NotReceived,
    /// The file was received, and not all that is ready was judged or told.
    ReceivedUnsettled,
}

impl CommandFault {
    /// The line on standard error that names the fault, with its end.
    pub fn line(self) -> &'static str
        ensures { result.now ≡ error_line self }
    {
        match self {
            CommandFault::Unreadable => "gazhub: Unreadable\n",
            CommandFault::NotReceived => "gazhub: NotReceived\n",
            CommandFault::ReceivedUnsettled => "gazhub: ReceivedUnsettled\n",
        }
    }
}

/// What a command says.
#[derive(Drop)]
pub enum Said {
    /// A line for standard output.
    Line(PrintedLine),
    /// A custodian's view after a volume, for standard output.
    Extract(ExtractText),
    /// Nothing for standard output.
    Failed(CommandFault),
}

impl Said {
    /// Whether what was asked for was done.
    pub fn is_done(&self) -> bool
        ensures { result ≡ is_said_done self.now }
    {
        match self {
            Said::Line(line) => line.is_done(),
            Said::Extract(_) => true,
            Said::Failed(_) => false,
        }
    }

    /// What is said of the answer to a submission.
    pub fn answered(answer: Answer) -> Said
        ensures { result ≡ said_of answer }
    {
        match answer {
            Answer::New(outcome) => Said::Line(PrintedLine::New(outcome)),
            Answer::Repeat(outcome) => Said::Line(PrintedLine::Repeat(outcome)),
            Answer::Taken { digest } => Said::Line(PrintedLine::Taken(digest)),
            Answer::Refused(refusal) => Said::refused(refusal),
        }
    }

    // What is said of the line of a property.
    fn address(line: Option<AddressLine>) -> Said
        ensures { result ≡ said_address line }
    {
        match line {
            Some(line) => Said::Line(PrintedLine::Address(line)),
            None => Said::Line(PrintedLine::Nothing),
        }
    }

    // What is said of what is there. No command asks anything else.
    fn of_told(told: Told) -> Said
        ensures { result ≡ said_of_told told }
    {
        match told {
            Told::Standing(standing) => Said::Line(PrintedLine::Stands(standing)),
            Told::Found(found) => Said::address(found.line),
            Told::Extract(text) => Said::Extract(text),
            _ => Said::Line(PrintedLine::Nothing),
        }
    }

    /// What is said of what the hub tells of a question: of a property, its line.
    pub fn told(told: Result<Option<Told>, Refusal>) -> Said
        ensures { result ≡ said_told told }
    {
        match told {
            Ok(Some(told)) => Said::of_told(told),
            Ok(None) => Said::Line(PrintedLine::Nothing),
            Err(refusal) => Said::refused(refusal),
        }
    }

    // What is said of a refusal of the hub's.
    fn refused(refusal: Refusal) -> Said
        ensures { result ≡ said_refused refusal }
    {
        match refusal {
            Refusal::Door(why) => turned_away(why),
            Refusal::NotReceived(_) => Said::Failed(CommandFault::NotReceived),
            Refusal::ReceivedUnsettled(_) => Said::Failed(CommandFault::ReceivedUnsettled),
        }
    }
}

/// What is said where a command was turned away.
pub(crate) fn turned_away(refusal: DoorRefusal) -> Said
    ensures { result ≡ Said.Line (PrintedLine.Refused refusal) }
{
    Said::Line(PrintedLine::Refused(refusal))
}
