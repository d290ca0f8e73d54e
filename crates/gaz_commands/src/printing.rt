//! How what a command says is printed.
ghost use Rattle.std.specs.Prelude.{true};
ghost use Rattle.gaz_commands.specs.Saying.{text_of};
ghost use Rattle.gaz_commands.specs.Printing.{IsPrinted};

use crate::said::Said;
use std::io::Write;

/// Writes what a command says, which takes no memory, and flushes the writer. At `false` the writer
/// failed, and what was written isn't known.
pub fn print<W: Write>(w: &mut W, said: &Said) -> bool
    ensures { IsPrinted (W.contents w.old) (W.contents w.new) (text_of said.now) result }
{
    let printed = match said {
        Said::Line(line) => writeln!(w, "{line}"),
        Said::Extract(text) => w.write_all(text.as_slice()),
        Said::Failed(_) => return true,
    };
    printed.is_ok() && w.flush().is_ok()
}
