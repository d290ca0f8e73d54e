//! What stands on a street, and what names a BLPU, in a custodian's last view.
ghost use Rattle.std.specs.Prelude.{◌≡◌, ◌≤◌, option_map, pos, true};
ghost use Rattle.std.specs.List.{list_any};
ghost use Rattle.gaz_tables.specs.Schema.{version2};
ghost use Rattle.gaz_tables.specs.Versions.{FindsApprovedOn, FindsParts};
ghost use Rattle.gaz_tables.specs.Tables.{rows_of};
ghost use Rattle.gaz_records.specs.Kinds.{is_entry_kind, number_of};
ghost use Rattle.gaz_views.specs.Words.{approved_on, entries, has_children, tied};
ghost use Rattle.gaz_kept.specs.LastViews.{last_in};
ghost use Rattle.gaz_calls.specs.Asking.{AsksTables};
ghost use Rattle.gaz_answers.specs.Streets.{IsStep, is_left_on, is_left_part, is_left_tied};

use crate::tables::Tables;
use gaz_answers::sizes::MOST;
use gaz_answers::steps::{Step, parts_told, street_told};
use gaz_ids::{Code, Lang, Uprn, Usrn};
use gaz_keeper::ShelfFault;
use gaz_overlay::Overlay;
use gaz_records::Kind;
use gaz_tables::versions;
use sqlite::{Alter, Row};

impl<S: Alter> Tables<S> {
    // Id and language of the approved rows on a street, behind an id: the first so many.
    fn street_rows(
        &mut self,
        code: Code,
        usrn: Usrn,
        start: &str,
        most: u32,
    ) -> Result<Vec<Row>, ShelfFault>
        ensures { AsksTables self.old self.new result (λ db rows.
            FindsApprovedOn code usrn start.now most (rows_of db version2) rows.items) }
    {
        self.ready()?;
        let cust = code.number() as u32;
        let street = usrn.number() as u32;
        let found = versions::approved_on(&mut self.conn, cust, street, start, most);
        self.told(found)
    }

    // Id of the current rows of a kind that name a BLPU, behind an id: the first so many.
    fn part_rows(
        &mut self,
        code: Code,
        kind: Kind,
        uprn: Uprn,
        start: &str,
        most: u32,
    ) -> Result<Vec<Row>, ShelfFault>
        ensures asks { AsksTables self.old self.new result (λ db rows.
            FindsParts code (number_of kind) (pos uprn) start.now most
            (rows_of db version2) rows.items) }
        ensures some { 1 ≤ uprn }
    {
        let blpu = uprn.number() as i64;
        self.ready()?;
        let cust = code.number() as u32;
        let kind = kind.number() as u32;
        let found = versions::parts_of(&mut self.conn, cust, kind, &blpu, start, most);
        self.told(found)
    }

    // What the page behind an id tells of a street.
    fn street_step(
        &mut self,
        code: Code,
        usrn: Usrn,
        lang: Option<Lang>,
        passed: Option<&Overlay>,
        start: &str,
    ) -> Result<Step, ShelfFault>
        ensures { AsksTables self.old self.new result (λ db step. IsStep (is_left_on usrn lang
            (option_map (λ c. c.now) passed.entry)) (last_in db code) start.now step) }
    {
        let rows = self.street_rows(code, usrn, start, MOST)?;
        self.read(street_told(self.alloc, &rows, lang, passed))
    }

    /// Whether an approved LPI is on a street, and in this language where one is given, whose key
    /// isn't passed over: one that these changes haven't touched.
    pub fn left_on(
        &mut self,
        code: Code,
        usrn: Usrn,
        lang: Option<Lang>,
        passed: Option<&Overlay>,
    ) -> Result<bool, ShelfFault>
        ensures { AsksTables self.old self.new result (λ db found. found ≡ list_any (is_left_on
            usrn lang (option_map (λ c. c.now) passed.entry)) (entries (last_in db code))) }
    {
        let mut start = String::new(self.alloc);
        'pages: for _page in 0..u64::MAX {
            let step = self.street_step(code, usrn, lang, passed, start.as_str())?;
            match step {
                Step::Told(found) => return Ok(found),
                Step::Behind(id) => start = id,
            }
        }
        // More pages than can be counted.
        Err(ShelfFault::Memory)
    }

    /// Whether an approved LPI is on a street, and in this language where one is given.
    pub fn approved_on(
        &mut self,
        code: Code,
        usrn: Usrn,
        lang: Option<Lang>,
    ) -> Result<bool, ShelfFault>
        ensures { AsksTables self.old self.new result
            (λ db found. found ≡ approved_on (last_in db code) usrn lang) }
    {
        self.left_on(code, usrn, lang, None)
    }

    // What the page behind an id tells of what of a kind names a BLPU.
    fn part_step(
        &mut self,
        code: Code,
        kind: Kind,
        uprn: Uprn,
        passed: Option<&Overlay>,
        start: &str,
    ) -> Result<Step, ShelfFault>
        requires { is_entry_kind kind ≡ true }
        ensures { AsksTables self.old self.new result (λ db step. IsStep (is_left_part kind uprn
            (option_map (λ c. c.now) passed.entry)) (last_in db code) start.now step) }
    {
        let rows = self.part_rows(code, kind, uprn, start, MOST)?;
        self.read(parts_told(self.alloc, &rows, kind, passed))
    }

    /// Whether an item of a kind, which is to be one of entries, names a BLPU at a key that isn't
    /// passed over: one that these changes haven't touched.
    pub fn left_part(
        &mut self,
        code: Code,
        kind: Kind,
        uprn: Uprn,
        passed: Option<&Overlay>,
    ) -> Result<bool, ShelfFault>
        requires { is_entry_kind kind ≡ true }
        ensures { AsksTables self.old self.new result (λ db found. found ≡ list_any (is_left_part
            kind uprn (option_map (λ c. c.now) passed.entry)) (entries (last_in db code))) }
    {
        let mut start = String::new(self.alloc);
        'pages: for _page in 0..u64::MAX {
            let step = self.part_step(code, kind, uprn, passed, start.as_str())?;
            match step {
                Step::Told(found) => return Ok(found),
                Step::Behind(id) => start = id,
            }
        }
        // More pages than can be counted.
        Err(ShelfFault::Memory)
    }

    /// Whether a BLPU is a part of this one.
    pub fn children(&mut self, code: Code, uprn: Uprn) -> Result<bool, ShelfFault>
        ensures { AsksTables self.old self.new result
            (λ db found. found ≡ has_children (last_in db code) uprn) }
    {
        self.left_part(code, Kind::Blpu, uprn, None)
    }

    /// Whether an LPI or a cross reference, of whatever status, names a BLPU at a key that isn't
    /// passed over: one that these changes haven't touched.
    pub fn left_tied(
        &mut self,
        code: Code,
        uprn: Uprn,
        passed: Option<&Overlay>,
    ) -> Result<bool, ShelfFault>
        ensures { AsksTables self.old self.new result (λ db found. found ≡ list_any (is_left_tied
            uprn (option_map (λ c. c.now) passed.entry)) (entries (last_in db code))) }
    {
        let by_lpi = self.left_part(code, Kind::Lpi, uprn, passed)?;
        if by_lpi {
            return Ok(true);
        }
        self.left_part(code, Kind::Xref, uprn, passed)
    }

    /// Whether an LPI or a cross reference, of whatever status, names a BLPU.
    pub fn tied(&mut self, code: Code, uprn: Uprn) -> Result<bool, ShelfFault>
        ensures { AsksTables self.old self.new result
            (λ db found. found ≡ tied (last_in db code) uprn) }
    {
        self.left_tied(code, uprn, None)
    }
}
