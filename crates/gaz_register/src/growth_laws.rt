ghost use Rattle.gaz_register.specs.GrowthExamples.{WorkedGrowth};
ghost use Rattle.gaz_register.specs.GrowthLaws.{AllottedStays, CodesStay, ExtendsComposes};
ghost use Rattle.gaz_register.specs.GrowthLaws.{GrowthTells, OwnersStay};

/// Each answer to a growth comes just where its meaning holds.
pub fn growth_tells()
    ensures { GrowthTells }
{}

/// A register is a growth of itself, and a growth of a growth is a growth.
pub fn extends_composes()
    ensures { ExtendsComposes }
{}

/// In a growth, a number that had an owner has the same owner.
pub fn owners_stay()
    ensures { OwnersStay }
{}

/// A growth has the codes of the old register.
pub fn codes_stay()
    ensures { CodesStay }
{}

/// In a growth, what was allotted stays so, and a custodian of the old register gets nothing else.
pub fn allotted_stays()
    ensures { AllottedStays }
{}

/// What is a growth of a small register, and what is not.
pub fn worked_growth()
    ensures { WorkedGrowth }
{}
