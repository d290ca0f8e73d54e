//! How the program ends.
ghost use Rattle.std.specs.Prelude.{◌≡◌};
ghost use Rattle.gazhub.specs.Endings.{line_of, no_hub_line, status_of};

use crate::files::NoHub;
use gaz_commands::CommandFault;
use gaz_register::RegFault;
use gaz_store::StoreRefusal;

/// How the program ends.
#[derive(Clone, Copy)]
pub enum Ending {
    /// What was asked for was done, or the conversation was held to its end.
    Done,
    /// It wasn't done, or isn't there.
    NotDone,
    /// The words ask for nothing that there is, as `clap` has told.
    Usage,
    /// There was no memory to begin with.
    Memory,
    /// The words, the random bytes or a request couldn't be read.
    ReadFault,
    /// A reply, or what a command says, couldn't be written.
    WriteFault,
    /// There was no hub to ask.
    NoHub(NoHub),
    /// There was none any more, after connections were answered.
    Lost(NoHub),
    /// The change file couldn't be read, or the hub failed.
    Failed(CommandFault),
}

// The line that says why there is no hub.
fn no_hub_line(why: NoHub) -> &'static str
    ensures { result.now ≡ no_hub_line why }
{
    match why {
        NoHub::Unreadable => "gazhub: Unreadable\n",
        NoHub::Register(RegFault::NotToml) => "gazhub: NotToml\n",
        NoHub::Register(RegFault::Shape) => "gazhub: Shape\n",
        NoHub::Register(RegFault::TooMany) => "gazhub: TooMany\n",
        NoHub::Register(RegFault::BadCode) => "gazhub: BadCode\n",
        NoHub::Register(RegFault::BadName) => "gazhub: BadName\n",
        NoHub::Register(RegFault::BadBlock) => "gazhub: BadBlock\n",
        NoHub::Register(RegFault::SameCode) => "gazhub: SameCode\n",
        NoHub::Register(RegFault::Overlap) => "gazhub: Overlap\n",
        NoHub::Store(StoreRefusal::BadSchema) => "gazhub: BadSchema\n",
        NoHub::Store(StoreRefusal::OtherRegister) => "gazhub: OtherRegister\n",
        NoHub::Store(StoreRefusal::Fault) => "gazhub: Fault\n",
        NoHub::NoPort => "gazhub: NoPort\n",
        NoHub::Register(RegFault::Memory) | NoHub::Memory => "gazhub: Memory\n",
    }
}

impl Ending {
    /// The exit status: 0, 1 for what wasn't done, 2 for usage, 3 for a fault.
    pub fn status(self) -> u8
        ensures { result ≡ status_of self }
    {
        match self {
            Ending::Done => 0,
            Ending::NotDone => 1,
            Ending::Usage => 2,
            Ending::Memory | Ending::ReadFault | Ending::WriteFault => 3,
            Ending::NoHub(_) | Ending::Lost(_) | Ending::Failed(_) => 3,
        }
    }

    /// The line on standard error that names a fault; none where there is no fault.
    pub fn line(self) -> &'static str
        ensures { result.now ≡ line_of self }
    {
        match self {
            Ending::Done | Ending::NotDone | Ending::Usage => "",
            Ending::Memory => "gazhub: Memory\n",
            Ending::ReadFault => "gazhub: ReadFault\n",
            Ending::WriteFault => "gazhub: WriteFault\n",
            Ending::NoHub(why) | Ending::Lost(why) => no_hub_line(why),
            Ending::Failed(fault) => fault.line(),
        }
    }
}
