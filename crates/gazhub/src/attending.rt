//! Connections over the store at a path are answered.
ghost use Rattle.std.specs.Prelude.{◌≡◌, IfErr, IfOk, IfSome, IsTrue, true};
ghost use Rattle.std.specs.Io.KnownBytes.{Keeps};
ghost use Rattle.gaz_stored.specs.Serving.{AreSome};
ghost use Rattle.gazhub.specs.Endings.{is_silent};
ghost use Rattle.gazhub.specs.Serving.{ServeComesTo, ServesIn, ServesOnce, ServesRest};
ghost use Rattle.gazhub.specs.Serving.{said_of_serving};

use crate::ending::Ending;
use crate::files::{NoHub, open_files, read_register};
use crate::site::{Purpose, Site};
use gaz_filing::{FilesBack, serve_store};
use gaz_ledger::Seed;
use gaz_register::Register;
use gaz_store::StoreRefusal;
use gaz_stored::Unserved;
use gaz_words::{Places, Serving};
use sqlite::{Files, Options};
use std::alloc::Global;
use std::io::{Write, sink};

// How many connections were answered, none where nobody could be told where they come; or why there
// was no hub or no port for them.
fn said_of_serving(held: Result<Result<u64, Unserved>, StoreRefusal>) -> Result<Option<u64>, NoHub>
    ensures { result ≡ said_of_serving held }
{
    match held {
        Ok(Ok(served)) => Ok(Some(served)),
        Ok(Err(Unserved::Unwritten)) => Ok(None),
        Ok(Err(Unserved::NoPort)) => Err(NoHub::NoPort),
        Err(refusal) => Err(NoHub::Store(refusal)),
    }
}

// Answers connections, so many at most, over the store in these files until something fails. That
// there is no port for them is told only where there is a hub.
fn serve_in<S: Site, W: Write>(
    site: &mut S,
    alloc: Global,
    seed: Seed,
    serving: Serving,
    register: Register,
    files: Files<S::Medium>,
    options: Options,
    w: &mut W,
) -> Result<Option<u64>, NoHub>
    requires log { IsTrue (S.Medium.Disk.is_usable files.log) }
    requires db { IsTrue (S.Medium.Disk.is_usable files.db) }
    ensures served { ServesIn S.done S.Medium.Disk serving.port serving.connections
        (W.contents w.old) (W.contents w.new) register files site.old site.new result }
    ensures silent { IfErr result (λ _. Keeps (W.contents w.old) (W.contents w.new)) }
    ensures some { IfOk result (λ told. IfSome told (AreSome serving.connections)) }
{
    let port = site.listen(serving.port);
    let wanted = serving.connections;
    let FilesBack { left, told: held } = serve_store(
        alloc, files, options, seed, register, port, site, w, wanted,
    );
    site.close(left);
    said_of_serving(held)
}

// Reads the register, opens the store that is there, and answers connections over it.
fn serve_once<S: Site, W: Write>(
    site: &mut S,
    alloc: Global,
    seed: Seed,
    places: Places<'_>,
    serving: Serving,
    w: &mut W,
) -> Result<Option<u64>, NoHub>
    ensures served { ServesOnce S.done S.Medium.Disk places.entry serving.port serving.connections
        (W.contents w.old) (W.contents w.new) site.old site.new result }
    ensures silent { IfErr result (λ _. Keeps (W.contents w.old) (W.contents w.new)) }
    ensures some { IfOk result (λ told. IfSome told (AreSome serving.connections)) }
{
    let register = read_register(site, alloc, places.register)?;
    let (files, options) = open_files(site, places.store, Purpose::Use)?;
    serve_in(site, alloc, seed, serving, register, files, options, w)
}

// Answers those that are left of the connections: what failed is opened again between two of them.
fn serve_rest<S: Site>(
    site: &mut S,
    alloc: Global,
    seed: Seed,
    places: Places<'_>,
    serving: Serving,
) -> Ending
    ensures { ServesRest S.done S.Medium.Disk places.entry serving.port serving.connections
        site.old site.new result }
{
    let mut left = serving.connections;
    for _opening in 0..serving.connections {
        if left == 0 {
            return Ending::Done;
        }
        let wanted = Serving {
            port: serving.port,
            connections: left,
        };
        match serve_once(site, alloc, seed, places, wanted, &mut sink()) {
            Ok(Some(served)) => left -= served,
            Ok(None) => return Ending::WriteFault,
            Err(why) => return Ending::Lost(why),
        }
    }
    Ending::Done
}

/// Answers connections over the store that is there, at a port of 127.0.0.1; for 0 the system
/// chooses one. It says first where. A store that failed is opened again before the next connection
/// is answered. No store is made, though an empty log may be.
pub fn serve<S: Site, W: Write>(
    site: &mut S,
    alloc: Global,
    seed: Seed,
    places: Places<'_>,
    serving: Serving,
    w: &mut W,
) -> Ending
    ensures serves { ServeComesTo S.done S.Medium.Disk places.entry serving.port serving.connections
        (W.contents w.old) (W.contents w.new) site.old site.new result }
    ensures silent { is_silent result ≡ true → Keeps (W.contents w.old) (W.contents w.new) }
{
    match serve_once(site, alloc, seed, places, serving, w) {
        Ok(Some(served)) => {
            let left = Serving {
                port: serving.port,
                connections: serving.connections - served,
            };
            serve_rest(site, alloc, seed, places, left)
        }
        Ok(None) => Ending::WriteFault,
        Err(why) => Ending::NoHub(why),
    }
}
