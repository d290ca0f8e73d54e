//! The lines that commands print.
ghost use Rattle.std.specs.Prelude.{◌≡◌, Some};
ghost use Rattle.hex.specs.Hex.{encode_lower};
ghost use Rattle.gaz_commands.specs.Lines.{became_text, growth_number, is_done, line_text};
ghost use Rattle.gaz_commands.specs.Lines.{pair_text, standing_text, wanted_text};

use gaz_extract::AddressLine;
use gaz_ids::{Code, Volume};
use gaz_register::GrowFault;
use gaz_steps::{Digest, DoorRefusal, Outcome, Standing};
use std::fmt;

// The number that is printed where a register is no growth of a store's.
fn growth_number(fault: GrowFault) -> u8
    ensures { result ≡ growth_number fault }
{
    match fault {
        GrowFault::RemovedCustodian => 61,
        GrowFault::ChangedBlocks => 62,
    }
}

/// A line of what a command answers.
#[derive(Drop)]
pub enum PrintedLine {
    /// A store was made.
    Ready,
    /// A store's register grew.
    Extended,
    /// It didn't, since what it was to grow to is no growth of it.
    NotExtended(GrowFault),
    /// A store of schema 1 became one of schema 2.
    Migrated,
    /// It is of schema 2 already.
    Current,
    /// What became of a file that was received now.
    New(Outcome),
    /// What became of a file that was received before.
    Repeat(Outcome),
    /// Another file was received before, with this digest.
    Taken(Digest),
    /// How far a custodian's files are judged.
    Stands(Standing),
    /// How a property is addressed.
    Address(AddressLine),
    /// What is asked for isn't there.
    Nothing,
    /// By the hub's door, or since a word doesn't read.
    Refused(DoorRefusal),
}

impl PrintedLine {
    /// Whether what the words ask for was done: a file is applied, or what is asked for is there.
    pub fn is_done(&self) -> bool
        ensures { result ≡ is_done self.now }
    {
        match self {
            PrintedLine::New(outcome) | PrintedLine::Repeat(outcome) => {
                matches!(outcome, Outcome::Applied)
            }
            PrintedLine::Ready | PrintedLine::Extended => true,
            PrintedLine::Migrated | PrintedLine::Current => true,
            PrintedLine::Stands(_) | PrintedLine::Address(_) => true,
            PrintedLine::Taken(_) | PrintedLine::Nothing => false,
            PrintedLine::Refused(_) | PrintedLine::NotExtended(_) => false,
        }
    }
}

// A custodian's volume, as `1001/2`.
#[derive(Drop)]
struct Pair(Code, Volume);

impl fmt::Display for Pair {
    ghost output = { λ p. Some (pair_text p.0 p.1) };

    fn fmt<W: fmt::Write>(&self, f: &mut fmt::Formatter<W>) -> fmt::Result {
        let Pair(custodian, volume) = self;
        write!(f, "{custodian}/{volume}")
    }
}

// What a next volume waits for, `-` where it waits for nothing.
#[derive(Drop)]
struct Wanted(Option<(Code, Volume)>);

impl fmt::Display for Wanted {
    ghost output = { λ w. Some (wanted_text w.0) };

    fn fmt<W: fmt::Write>(&self, f: &mut fmt::Formatter<W>) -> fmt::Result {
        match self.0 {
            Some((custodian, volume)) => write!(f, "{}", Pair(custodian, volume)),
            None => write!(f, "-"),
        }
    }
}

// What became of a file, as `rejected record 3 rule 21`.
#[derive(Drop)]
struct Became(Outcome);

impl fmt::Display for Became {
    ghost output = { λ b. Some (became_text b.0) };

    fn fmt<W: fmt::Write>(&self, f: &mut fmt::Formatter<W>) -> fmt::Result {
        match self.0 {
            Outcome::Applied => write!(f, "applied"),
            Outcome::Rejected { place, rule } => write!(f, "rejected record {place} rule {rule}"),
            Outcome::Held { custodian, volume } => {
                write!(f, "held wants {}", Pair(custodian, volume))
            }
        }
    }
}

// How far a custodian's files are judged, as `custodian 1001 judged 2 held 1 wants 1001/3`.
#[derive(Drop)]
struct Stands(Standing);

impl fmt::Display for Stands {
    ghost output = { λ s. Some (standing_text s.0) };

    fn fmt<W: fmt::Write>(&self, f: &mut fmt::Formatter<W>) -> fmt::Result {
        let Standing {
            custodian,
            held,
            judged,
            wants,
        } = self.0;
        let wants = Wanted(wants);
        write!(
            f,
            "custodian {custodian} judged {judged} held {held} wants {wants}"
        )
    }
}

// A digest, in 64 hexadecimal digits.
#[derive(Drop)]
struct InHex(Digest);

impl fmt::Display for InHex {
    ghost output = { λ d. Some (encode_lower d.0) };

    fn fmt<W: fmt::Write>(&self, f: &mut fmt::Formatter<W>) -> fmt::Result {
        let mut digits = [0; 64];
        if hex::encode_to_slice(self.0, &mut digits).is_err() {
            return Err(fmt::Error);
        }
        match std::str::from_utf8(&digits) {
            Ok(text) => write!(f, "{text}"),
            Err(_) => Err(fmt::Error),
        }
    }
}

/// The line, without its end.
impl fmt::Display for PrintedLine {
    ghost output = { λ l. Some (line_text l) };

    fn fmt<W: fmt::Write>(&self, f: &mut fmt::Formatter<W>) -> fmt::Result {
        match self {
            PrintedLine::Ready => write!(f, "ready"),
            PrintedLine::Extended => write!(f, "extended"),
            PrintedLine::NotExtended(fault) => write!(f, "refused {}", growth_number(*fault)),
            PrintedLine::Migrated => write!(f, "migrated"),
            PrintedLine::Current => write!(f, "current"),
            PrintedLine::New(outcome) => write!(f, "new {}", Became(*outcome)),
            PrintedLine::Repeat(outcome) => write!(f, "repeat {}", Became(*outcome)),
            PrintedLine::Taken(digest) => write!(f, "taken {}", InHex(*digest)),
            PrintedLine::Stands(standing) => write!(f, "{}", Stands(*standing)),
            PrintedLine::Address(line) => write!(f, "{}", line.as_str()),
            PrintedLine::Nothing => write!(f, "none"),
            PrintedLine::Refused(refusal) => write!(f, "refused {}", refusal.number()),
        }
    }
}
