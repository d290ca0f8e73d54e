ghost use Rattle.gaz_fields.specs.WorkedDates.{WorkedDates};

/// What dates say on worked examples.
pub fn worked_dates()
    ensures { WorkedDates }
{}
