//! Laws over the definitions alone.
ghost use Rattle.gaz_commands.specs.WorkedLines.{WorkedCommands};

/// What is asked, printed and done, on worked examples.
pub fn worked_commands()
    ensures { WorkedCommands }
{}
