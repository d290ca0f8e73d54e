//! What the definitions over a keeper come to on worked examples.
ghost use Rattle.gaz_hub.specs.WorkedHubs.{WorkedHubs};
ghost use Rattle.gaz_hub.specs.WorkedWaiting.{WorkedWaiting};

/// The door and the blocks of a hub over a register, on worked examples.
pub fn worked_hubs()
    ensures { WorkedHubs }
{}

/// Who is remembered to wait for what, and when that is right, on worked examples.
pub fn worked_waiting()
    ensures { WorkedWaiting }
{}
