//! The calls of a keeper over two that concern files.
ghost use Rattle.std.specs.Prelude.{◌≡◌, None};
ghost use Rattle.gaz_keeper.specs.Keeper.{IsNotOpen, IsOpen};
ghost use Rattle.gaz_keeper.specs.Telling.{Receives, TellsHeld, TellsNothing, TellsReceived};
ghost use Rattle.gaz_mirror.specs.Mirrored.{DropsUpper, Gathers, KeepsUpper, seen_mirrored};

use crate::asked_files::{Held, ReceivedOf};
use crate::mirror::Mirror;
use crate::turns::change;
use crate::unshared::Unshared;
use gaz_ids::{Code, Volume};
use gaz_keeper::{Inbox, ShelfFault};

impl<L: Inbox + Drop, U: Unshared + Drop> Inbox for Mirror<L, U> {
    fn received(&mut self, code: Code, volume: Volume) -> Result<Option<Vec<u8>>, ShelfFault>
        ensures reads { TellsReceived seen_mirrored self.old self.new result code volume }
        ensures keeps { KeepsUpper self.old self.new }
    {
        self.read(&ReceivedOf { code, volume })
    }

    fn receive(&mut self, code: Code, volume: Volume, bytes: &[u8]) -> Result<(), ShelfFault>
        requires { IsNotOpen (seen_mirrored self.old).progress }
        ensures enters { Receives seen_mirrored self.old self.new result code volume bytes.now }
        ensures open { IsOpen (seen_mirrored self.new) result }
        ensures drops { DropsUpper result self.new }
    {
        change!(self, receive(code, volume, bytes))
    }

    fn held(&mut self, code: Code) -> Result<u64, ShelfFault>
        ensures reads { TellsHeld seen_mirrored self.old self.new result code }
        ensures keeps { KeepsUpper self.old self.new }
    {
        self.read(&Held { code })
    }

    fn sure(&mut self) -> Result<(), ShelfFault>
        ensures reads { TellsNothing seen_mirrored self.old self.new result }
        ensures open { IsOpen (seen_mirrored self.new) result }
        ensures drops { self.old.gathered ≡ None → DropsUpper result self.new }
        ensures keeps { Gathers self.old → KeepsUpper self.old self.new }
    {
        let sure = self.lower.sure();
        if sure.is_err() && self.gathered.is_none() {
            self.upper = None;
        }
        sure
    }
}
