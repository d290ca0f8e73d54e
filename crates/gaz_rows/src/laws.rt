ghost use Rattle.gaz_rows.specs.Rows.{RowsAreUtf8, RowsReadBack};

/// What is written of rows reads back as those rows.
pub fn rows_read_back()
    ensures { RowsReadBack }
{}

/// What is written of rows whose fields are UTF-8 is UTF-8.
pub fn rows_are_utf8()
    ensures { RowsAreUtf8 }
{}
