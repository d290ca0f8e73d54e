//! The definitions on worked examples.
ghost use Rattle.gaz_http.specs.WorkedClosings.{WorkedClosings};
ghost use Rattle.gaz_http.specs.WorkedReads.{WorkedReads};

/// Which request is the last by its own word.
pub fn worked_closings()
    ensures { WorkedClosings }
{}

/// How often a reader is read.
pub fn worked_reads()
    ensures { WorkedReads }
{}
