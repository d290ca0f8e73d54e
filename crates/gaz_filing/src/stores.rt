//! A store is made in two files, asked, and answers connections, whatever disk they are on.
ghost use Rattle.std.specs.Prelude.{◌≡◌, false, IfErr, IfOk, IsTrue, option_map};
ghost use Rattle.gaz_stored.specs.Announcing.{IsAnnounced};
ghost use Rattle.gaz_stored.specs.Asking.{asked};
ghost use Rattle.gaz_stored.specs.Meetings.{WithPeers};
ghost use Rattle.gaz_stored.specs.Serving.{AreSome};
ghost use Rattle.gaz_filing.specs.Filing.{AsksStore, Closes, Connects, FailsToConnect, MakesNone};
ghost use Rattle.gaz_filing.specs.Filing.{MakesStore, OpensNone, ServesStore};

use crate::files_back::FilesBack;
use gaz_commands::{PrintedLine, Said};
use gaz_ledger::Seed;
use gaz_register::Register;
use gaz_store::Store;
use gaz_stored::{HandedBack, MOST_REQUESTS, Peers, Returned, Unserved, ask_opened, serve_opened};
use gaz_words::Call;
use sqlite::{Connection, FileStore, Files, Options};
use sqlite_disk::Disk;
use std::alloc::Global;
use std::io::Write;
use std::marker::Brand;
use std::mem::forget;

/// A connection to the database in the files; or what is left of them, where none can be had.
pub(crate) fn connect<D: Disk + Drop>(
    alloc: Global,
    files: Files<D>,
    options: Options,
) -> Result<Connection<FileStore<D>>, Files<D>>
    requires log { IsTrue (D.Disk.is_usable files.log) }
    requires db { IsTrue (D.Disk.is_usable files.db) }
    ensures had { IfOk result (Connects D.Disk files) }
    ensures none { IfErr result (FailsToConnect D.Disk files) }
{
    match Connection::open_files(alloc, files, options) {
        Ok(conn) => Ok(conn),
        Err((_, rest)) => Err(rest.into_files()),
    }
}

/// Gives a store's files back. What was answered is in its log, where the next opening finds it,
/// even if it can't be copied into the database now; then the files are closed and none are given
/// back.
pub(crate) fn close<D: Disk + Drop>(conn: Connection<FileStore<D>>) -> Option<Files<D>>
    requires { conn.in_transaction ≡ false }
    ensures { Closes D.Disk conn result }
{
    let _schema = conn.schema();
    let _is_settled = conn.is_autocommit();
    match conn.close_files() {
        Ok(files) => Some(files),
        Err((_, store)) => {
            drop(store.close());
            None
        }
    }
}

/// Makes a store of the register in the files, which are given back where they can be closed.
///
/// `BadSchema` where a table named as one of a store's is there; `Fault` where memory or the
/// database failed.
pub fn make_store<D: Disk + Drop>(
    alloc: Global,
    files: Files<D>,
    options: Options,
    seed: Seed,
    register: &Register,
) -> FilesBack<D, Said>
    requires log { IsTrue (D.Disk.is_usable files.log) }
    requires db { IsTrue (D.Disk.is_usable files.db) }
    ensures made { IfOk result.told (MakesStore D.Disk files result.left register.now) }
    ensures none { IfErr result.told (MakesNone D.Disk files result.left register.now) }
{
    let conn = match connect(alloc, files, options) {
        Ok(conn) => conn,
        Err(left) => return FilesBack::unconnected(left),
    };
    match Store::<_, Brand>::create(alloc, seed, conn, register) {
        Ok(store) => {
            let left = close(store.into_connection());
            FilesBack {
                left,
                told: Ok(Said::Line(PrintedLine::Ready)),
            }
        }
        Err((conn, refusal)) => {
            let left = close(conn);
            FilesBack {
                left,
                told: Err(refusal),
            }
        }
    }
}

/// Asks a hub of the register over the store in the files, which are given back where they can be
/// closed. A submission is of these bytes, none where its file can't be read. Why there is none,
/// and in which order, is said of `ask_opened`.
pub fn ask_store<D: Disk + Drop>(
    alloc: Global,
    files: Files<D>,
    options: Options,
    seed: Seed,
    register: Register,
    call: Call<'_>,
    file: Option<&[u8]>,
) -> FilesBack<D, Said>
    requires log { IsTrue (D.Disk.is_usable files.log) }
    requires db { IsTrue (D.Disk.is_usable files.db) }
    ensures asked { IfOk result.told (AsksStore D.Disk files result.left register
        (asked call.entry (option_map (λ bytes. bytes.now) file.entry))) }
    ensures none { IfErr result.told (OpensNone D.Disk files result.left register) }
{
    let conn = match connect(alloc, files, options) {
        Ok(conn) => conn,
        Err(left) => return FilesBack::unconnected(left),
    };
    let Returned { conn, told } = ask_opened(alloc, seed, conn, register, call, file);
    let left = close(conn);
    FilesBack { left, told }
}

/// Answers at most so many peers at a hub of the register over the store in the files, which are
/// given back where they can be closed, and says first to which port they come. Gives how many: not
/// all of them where something failed, but one at least. Why there is no hub, and in which order,
/// is said of `serve_opened`. What is at hand in the end is never freed: that is nothing but where
/// all peers were answered, and then the program is about to end.
pub fn serve_store<D: Disk + Drop, P: Peers, W: Write>(
    alloc: Global,
    files: Files<D>,
    options: Options,
    seed: Seed,
    register: Register,
    port: Option<u16>,
    peers: &mut P,
    w: &mut W,
    connections: u64,
) -> FilesBack<D, Result<u64, Unserved>>
    requires log { IsTrue (D.Disk.is_usable files.log) }
    requires db { IsTrue (D.Disk.is_usable files.db) }
    ensures served { IfOk result.told (λ held.
        WithPeers P.meets P.Reader.Source.failed P.Writer.Sink.failed
        (ServesStore D.Disk files result.left register MOST_REQUESTS held) peers.old peers.new) }
    ensures nobody { IfErr result.told (λ _. peers.new ≡ peers.old) }
    ensures many { IfOk result.told (λ served. IfOk served (AreSome connections)) }
    ensures none { IfErr result.told (OpensNone D.Disk files result.left register) }
    ensures announced { IsAnnounced port (W.contents w.old) (W.contents w.new) result.told }
{
    let conn = match connect(alloc, files, options) {
        Ok(conn) => conn,
        Err(left) => return FilesBack::unconnected(left),
    };
    let HandedBack {
        conn,
        at_hand,
        told,
    } = serve_opened(alloc, seed, conn, register, port, peers, w, connections);
    // The system takes back at once what would take longer to free piece by piece.
    forget(at_hand);
    let left = close(conn);
    FilesBack { left, told }
}
