ghost use Rattle.gaz_cells.specs.Custody.{CustodyReadsBack};
ghost use Rattle.gaz_cells.specs.CustodyExamples.{WorkedCustody};
ghost use Rattle.gaz_cells.specs.Examples.{WorkedIds};
ghost use Rattle.gaz_cells.specs.Laws.{CellsFollow, CellsReadBack, CellsSayEntries};
ghost use Rattle.gaz_cells.specs.Laws.{IdsAreApart, IdsAreOrdered, IdsReadBack};

use gaz_records::laws::items_read_back;

/// A key is the one of its kind that its id names.
pub fn ids_read_back()
    ensures { IdsReadBack }
{}

/// Keys of a kind with one id are one key.
pub fn ids_are_apart()
    ensures { IdsAreApart }
{}

/// Within a kind the bytes of ids are in the order of keys.
pub fn ids_are_ordered()
    ensures { IdsAreOrdered }
{}

/// An entry's cells are those of its key, and say the entry.
pub fn cells_read_back()
    ensures { CellsReadBack }
{
    items_read_back();
}

/// Cells that say an item are the cells of that item.
pub fn cells_follow()
    ensures { CellsFollow }
{}

/// What cells say is one of the items that stand in views.
pub fn cells_say_entries()
    ensures { CellsSayEntries }
{}

/// The names of some keys, and which numbers an item is looked for by.
pub fn worked_ids()
    ensures { WorkedIds }
{}

/// What became of a number is what its cells say.
pub fn custody_reads_back()
    ensures { CustodyReadsBack }
{}

/// The cells of what became of a number, and what others say.
pub fn worked_custody()
    ensures { WorkedCustody }
{}
