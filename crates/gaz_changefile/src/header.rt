ghost use Rattle.std.specs.Prelude.{◌≡◌, IfErr, IfOk, OnOk, Some};
ghost use Rattle.csv.specs.Records.{fields_of};
ghost use Rattle.gaz_fields.specs.Days.{date_of};
ghost use Rattle.gaz_changefile.specs.Lines.{field, line_of, read_profile};
ghost use Rattle.gaz_changefile.specs.Rules.{header_rules};
ghost use Rattle.gaz_changefile.specs.Steps.{IsFirstOf, KeepsAll};
ghost use Rattle.gaz_changefile.specs.declared.line.Line.TheVariants.{Other};

use crate::file::FileFault;
use crate::line::field;
use crate::numbers::{Profile, is_known_profile};
use crate::rule;
use csv::ByteRecord;
use gaz_ids::{Code, Volume};
use gaz_records::Day;

/// What a header says beside the custodian and the volume.
#[derive(Drop)]
pub(crate) struct Header {
    /// 1 or 2.
    pub(crate) profile: u64,
    pub(crate) date: Day,
}

#[tactic(auto, unfolding(crate::specs::Rules::header_rules))]
/// The header of this custodian's file of this volume, or the first rule that it breaks.
pub(crate) fn read_header(row: &ByteRecord, code: Code, volume: Volume) -> Result<Header, FileFault>
    ensures bad { IfErr result (IsFirstOf 1 (header_rules code volume (fields_of row.now))) }
    ensures good { OnOk result (KeepsAll (header_rules code volume (fields_of row.now))) }
    ensures profile { IfOk result (λ header.
        read_profile (field (fields_of row.now) 1) ≡ Some header.profile) }
    ensures date { IfOk result (λ header.
        date_of (field (fields_of row.now) 4) ≡ Some header.date) }
    ensures other { IfOk result (λ header. line_of header.profile (fields_of row.now) ≡ Other) }
{
    if field(row, 0) != b"10".as_slice() || row.len() != 5 {
        return Err(FileFault::at(1, rule::HEADER));
    }
    let Ok(profile) = Profile::read(field(row, 1)) else {
        return Err(FileFault::at(1, rule::HEADER));
    };
    if !is_known_profile(profile.number()) {
        return Err(FileFault::at(1, rule::HEADER));
    }
    let Ok(custodian) = Code::read(field(row, 2)) else {
        return Err(FileFault::at(1, rule::HEADER));
    };
    let Ok(of) = Volume::read(field(row, 3)) else {
        return Err(FileFault::at(1, rule::HEADER));
    };
    let Some(date) = Day::read(field(row, 4)) else {
        return Err(FileFault::at(1, rule::HEADER));
    };
    if custodian.number() != code.number() || of.number() != volume.number() {
        return Err(FileFault::at(1, rule::ADDRESS));
    }
    Ok(Header {
        profile: profile.number(),
        date,
    })
}
