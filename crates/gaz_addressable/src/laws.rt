ghost use Rattle.gaz_addressable.specs.HouseNumbers.{WorkedOrder};
ghost use Rattle.gaz_addressable.specs.Objects.{ObjectsReadBack};
ghost use Rattle.gaz_addressable.specs.WorkedObjects.{WorkedObjects};

/// The five texts of an object read back as the same object.
pub fn objects_read_back()
    ensures { ObjectsReadBack }
{}

/// Some house numbers in their order: 12, 12A, 12B, 13.
pub fn worked_order()
    ensures { WorkedOrder }
{}

/// What five fields say of a house or a name, or what is wrong with them, on worked examples.
pub fn worked_objects()
    ensures { WorkedObjects }
{}
