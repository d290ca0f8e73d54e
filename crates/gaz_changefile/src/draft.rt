ghost use Rattle.std.specs.Prelude.{◌≡◌, ◌≤◌, ◌<◌, [], length, false, IfErr, IfOk, OnOk, Some};
ghost use Rattle.std.specs.Prelude.{None};
ghost use Rattle.csv.specs.Records.{fields_of};
ghost use Rattle.gaz_changefile.specs.Contents.{basis_in};
ghost use Rattle.gaz_changefile.specs.Rules.{basis_rules, is_above, later_rules};
ghost use Rattle.gaz_changefile.specs.Steps.{Adds, IsFirstOf, KeepsAll, before_in};

use crate::change::{Basis, Change};
use crate::file::{ChangeFile, FileFault};
use crate::header::Header;
use crate::line::Line;
use crate::record::{basis_in, read_change, read_trailer};
use crate::rule;
use csv::ByteRecord;
use gaz_ids::{Code, MOST_BASES, MOST_CHANGES};
use gaz_records::Day;
use std::alloc::Global;

/// A file as far as it was read.
#[derive(Drop)]
pub(crate) struct FileDraft {
    /// The custodian whose file it is.
    own: Code,
    /// The profile that its header names.
    profile: u64,
    date: Day,
    bases: Vec<Basis>,
    changes: Vec<Change>,
    /// The custodian that the record just read names, where it is a basis line.
    last: Option<Code>,
    /// Whether the trailer was read.
    ended: bool,
}

// Whether the code is greater than that of the basis line before.
fn is_above(last: Option<Code>, custodian: Code) -> bool
    ensures { result ≡ is_above last custodian }
{
    match last {
        Some(before) => before.number() < custodian.number(),
        None => true,
    }
}

impl FileDraft {
    /// The file behind its header.
    pub(crate) fn new(alloc: Global, own: Code, header: Header) -> FileDraft
        ensures own { result.own ≡ own }
        ensures profile { result.profile ≡ header.profile }
        ensures date { result.date ≡ header.date }
        ensures bases { result.bases.items ≡ [] }
        ensures changes { result.changes.items ≡ [] }
        ensures last { result.last ≡ None }
        ensures open { result.ended ≡ false }
    {
        FileDraft {
            own,
            profile: header.profile,
            date: header.date,
            bases: Vec::new(alloc),
            changes: Vec::new(alloc),
            last: None,
            ended: false,
        }
    }

    #[tactic(auto, unfolding(crate::specs::Rules::basis_rules))]
    // The basis of the basis line at `place`.
    fn read_basis(&self, row: &ByteRecord, place: u64) -> Result<Basis, FileFault>
        ensures bad { IfErr result (IsFirstOf place
            (basis_rules self.now.own (before_in self.now) (fields_of row.now))) }
        ensures good { OnOk result (KeepsAll
            (basis_rules self.now.own (before_in self.now) (fields_of row.now))) }
        ensures basis { IfOk result (λ basis. basis_in (fields_of row.now) ≡ Some basis) }
    {
        let Some(basis) = basis_in(row) else {
            return Err(FileFault::at(place, rule::BASIS));
        };
        if basis.custodian.number() == self.own.number()
            || !is_above(self.last, basis.custodian)
            || self.bases.len() as u64 >= MOST_BASES
            || !self.changes.is_empty()
        {
            return Err(FileFault::at(place, rule::BASIS));
        }
        Ok(basis)
    }

    #[tactic(auto, unfolding(crate::specs::Rules::later_rules))]
    /// Goes on with the record at `place`.
    pub(crate) fn add(
        &mut self,
        alloc: Global,
        row: &ByteRecord,
        place: u64,
    ) -> Result<(), FileFault>
        requires { length self.old.changes.items ≤ MOST_CHANGES }
        ensures bad { IfErr result (IsFirstOf place
            (later_rules self.old.own (before_in self.old) (Some (fields_of row.now)))) }
        ensures good { OnOk result (Adds self.old self.new place (fields_of row.now)) }
    {
        if self.ended {
            return Err(FileFault::at(place, rule::TRAILER));
        }
        let before = self.changes.len();
        match Line::of(row, self.profile) {
            Line::Basis => {
                let basis = self.read_basis(row, place)?;
                let custodian = basis.custodian;
                self.bases.push(basis)?;
                self.last = Some(custodian);
                Ok(())
            }
            Line::Change(kind) => {
                let change = read_change(alloc, row, self.own, kind, place, before)?;
                self.changes.push(change)?;
                self.last = None;
                Ok(())
            }
            Line::Trailer => {
                read_trailer(row, place, before)?;
                self.last = None;
                self.ended = true;
                Ok(())
            }
            Line::Other => Err(FileFault::at(place, rule::SHAPE)),
        }
    }

    #[tactic(auto, unfolding(crate::specs::Rules::later_rules))]
    /// The file, where `place` is one past its last record.
    pub(crate) fn finish(self, place: u64) -> Result<ChangeFile, FileFault>
        ensures bad { IfErr result (IsFirstOf place (later_rules self.own (before_in self) None)) }
        ensures good { OnOk result (KeepsAll (later_rules self.own (before_in self) None)) }
        ensures file { IfOk result (λ f. f ≡ record {
          date = self.date;
          bases = self.bases.items;
          changes = self.changes.items;
        }) }
    {
        if !self.ended {
            return Err(FileFault::at(place, rule::TRAILER));
        }
        Ok(ChangeFile {
            date: self.date,
            bases: self.bases,
            changes: self.changes,
        })
    }
}
