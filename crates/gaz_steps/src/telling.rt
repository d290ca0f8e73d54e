//! What is told of the answer to each question.
ghost use Rattle.std.specs.Prelude.{◌≡◌, ℕ};
ghost use Rattle.gaz_steps.specs.Hubs.{or_not_received, told, told_all};
ghost use Rattle.gaz_steps.specs.ToldOn.{telling};
ghost use Rattle.gaz_steps.specs.declared.question.Question.TheVariants.{Ask, Extract, ListClosed};
ghost use Rattle.gaz_steps.specs.declared.question.Question.TheVariants.{LookUp, Settle, Stand};

use crate::answer::Digest as FileDigest;
use crate::closed_list::ClosedList;
use crate::extract_text::ExtractText;
use crate::outcome::Outcome;
use crate::question::Told;
use crate::refusal::Refusal;
use crate::standing::Standing;
use gaz_extract::{Closed, Found};
use gaz_keeper::ShelfFault;

// A refusal is told as it is.
impl Told {
    /// What is told of the outcome of a volume; none where its file wasn't received.
    pub fn of_outcome(
        outcome: Result<Option<(FileDigest, Outcome)>, Refusal>,
    ) -> Result<Option<Told>, Refusal>
        ensures { (code volume : ℕ) → result ≡ telling (Ask code volume) outcome }
    {
        Ok(outcome?.map(|(digest, outcome)| Told::Outcome(digest, outcome)))
    }

    /// What is told of a custodian's standing.
    pub fn of_standing(standing: Result<Standing, Refusal>) -> Result<Option<Told>, Refusal>
        ensures { (code : ℕ) → result ≡ telling (Stand code) standing }
    {
        Ok(Some(Told::Standing(standing?)))
    }

    /// What is told of settling: none where it went well, 51 for a fault.
    pub fn of_settling(settled: Result<(), ShelfFault>) -> Result<Option<Told>, Refusal>
        ensures { result ≡ telling Settle (or_not_received settled) }
    {
        settled.map_err(Refusal::NotReceived)?;
        Ok(None)
    }

    /// What is told of where a property stands; none where it stands with no custodian.
    pub fn of_property(found: Result<Option<Found>, Refusal>) -> Result<Option<Told>, Refusal>
        ensures { (uprn : ℕ) → result ≡ telling (LookUp uprn) found }
    {
        Ok(found?.map(Told::Found))
    }

    /// What is told of an extract; none where the volume isn't reached.
    pub fn of_extract(extract: Result<Option<Vec<u8>>, Refusal>) -> Result<Option<Told>, Refusal>
        ensures { (code volume : ℕ) → result ≡ telling (Extract code volume) (told extract) }
    {
        Ok(extract?.map(|bytes| Told::Extract(ExtractText { bytes })))
    }

    /// What is told of addresses on closed streets.
    pub fn of_closed(closed: Result<Vec<Closed>, Refusal>) -> Result<Option<Told>, Refusal>
        ensures { result ≡ telling ListClosed (told_all closed) }
    {
        let closed = closed?;
        Ok(Some(Told::Closed(ClosedList { closed })))
    }
}
