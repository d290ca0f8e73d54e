ghost use Rattle.gaz_register.specs.Laws.{OneOwner, ReadsRegisters, SortsBlocks, SortsCustodians};
ghost use Rattle.gaz_register.specs.Laws.{TextsTell};
ghost use Rattle.gaz_register.specs.WorkedReading.{WorkedBlocks, WorkedReading};

/// What a text describes is a register: its codes rise, and no number is in two blocks.
pub fn reads_registers()
    ensures { ReadsRegisters }
{}

/// A number is in the own blocks of its owner, and of nobody else.
pub fn one_owner()
    ensures { OneOwner }
{}

/// Equal canonical texts mean equal registers.
pub fn texts_tell()
    ensures { TextsTell }
{}

/// The order of blocks keeps the blocks.
pub fn sorts_blocks()
    ensures { SortsBlocks }
{}

/// The order of custodians keeps the custodians.
pub fn sorts_custodians()
    ensures { SortsCustodians }
{}

/// What the reading of a register, and its canonical text, come to on worked examples.
pub fn worked_reading()
    ensures blocks { WorkedBlocks }
    ensures registers { WorkedReading }
{}
