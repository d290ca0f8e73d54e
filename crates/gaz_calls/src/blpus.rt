//! A BLPU with its addresses.
ghost use Rattle.std.specs.Prelude.{◌≡◌, pos};
ghost use Rattle.gaz_tables.specs.Schema.{version2};
ghost use Rattle.gaz_tables.specs.Versions.{FindsApprovedOf};
ghost use Rattle.gaz_tables.specs.Tables.{rows_of};
ghost use Rattle.gaz_views.specs.Words.{address_of, approved_of, property_of};
ghost use Rattle.gaz_calls.specs.Asking.{AsksTables};
ghost use Rattle.gaz_kept.specs.LastViews.{last_in};

use crate::tables::Tables;
use gaz_ids::{Code, Uprn};
use gaz_keeper::ShelfFault;
use gaz_records::{Key, SharedItem};
use gaz_row_items::addresses::{keys_said, least_said};
use gaz_tables::versions;
use gaz_views::Property;
use sqlite::{Alter, Row};

impl<S: Alter> Tables<S> {
    // The rows of a BLPU's approved LPIs that are current, in whatever order.
    fn approved_rows(&mut self, code: Code, uprn: Uprn) -> Result<Vec<Row>, ShelfFault>
        ensures { AsksTables self.old self.new result
            (λ db rows. FindsApprovedOf code (pos uprn) (rows_of db version2) rows.items) }
    {
        self.ready()?;
        let cust = code.number() as u32;
        let blpu = uprn.number() as i64;
        let found = versions::approved_of(&mut self.conn, cust, &blpu);
        self.told(found)
    }

    /// The keys of a BLPU's approved LPIs in a custodian's last view, in key order.
    pub fn approved_of(&mut self, code: Code, uprn: Uprn) -> Result<Vec<Key>, ShelfFault>
        ensures { AsksTables self.old self.new result
            (λ db keys. keys.items ≡ approved_of (last_in db code) uprn) }
    {
        let rows = self.approved_rows(code, uprn)?;
        self.read(keys_said(self.alloc, &rows))
    }

    // The BLPU's approved LPI of the least key in a custodian's last view.
    fn address_of(&mut self, code: Code, uprn: Uprn) -> Result<Option<SharedItem>, ShelfFault>
        ensures { AsksTables self.old self.new result
            (λ db i. i ≡ address_of (last_in db code) uprn) }
    {
        let rows = self.approved_rows(code, uprn)?;
        self.read(least_said(self.alloc, &rows))
    }

    /// A BLPU in a custodian's last view with its approved LPI: that of the least key, where there
    /// are several.
    pub fn property_of(&mut self, code: Code, uprn: Uprn) -> Result<Option<Property>, ShelfFault>
        ensures { AsksTables self.old self.new result
            (λ db p. p ≡ property_of (last_in db code) uprn) }
    {
        let found = self.current(code, &Key::Blpu(uprn))?;
        let Some(blpu) = found else {
            return Ok(None);
        };
        let address = self.address_of(code, uprn)?;
        Ok(Some(Property { blpu, address }))
    }
}
