ghost use Rattle.gaz_records.specs.Items.{ItemsReadBack, ReadsItems};
ghost use Rattle.gaz_records.specs.Keys.{KeysAreOrdered};
ghost use Rattle.gaz_records.specs.Kinds.{IdentifiersReadBack};
ghost use Rattle.gaz_records.specs.SortKeys.{WorkedSortKeys};
ghost use Rattle.gaz_records.specs.WorkedFields.{WorkedFields};

/// An item reads back as the same item, from the texts of its fields and from its row.
pub fn items_read_back()
    ensures { ItemsReadBack }
{}

/// What fields say as an item of a kind is of that kind, and such as the table allows.
pub fn what_is_read()
    ensures { ReadsItems }
{}

/// A record identifier is the digits of its number, and says its kind.
pub fn identifiers_read_back()
    ensures { IdentifiersReadBack }
{}

/// The order of keys is total, and keys that tie are one.
pub fn keys_are_ordered()
    ensures { KeysAreOrdered }
{}

/// Some keys as two numbers.
pub fn worked_sort_keys()
    ensures { WorkedSortKeys }
{}

/// What the fields of a record say on worked examples.
pub fn worked_fields()
    ensures { WorkedFields }
{}
