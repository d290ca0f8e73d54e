//! What a command reaches outside: files at paths, and a port with the peers that come to it.
ghost use Rattle.std.specs.Prelude.{◌≤◌, IfSome, IsTrue, length};
ghost use Rattle.gaz_stored.specs.Meetings.{Meeting};
ghost use Rattle.gazhub.specs.Sites.{Closed, Deed, Listened, Met, Opened, Read, bytes_of, files_of};

use gaz_stored::Peers;
use sqlite::{Files, Options};
use sqlite_disk::Disk;

/// What a store's files are opened for.
#[derive(Clone, Copy)]
pub enum Purpose {
    /// A store is made, where none need be.
    Make,
    /// The store that is there is used.
    Use,
    /// The store that is there is migrated.
    Migrate,
}

/// Where the files are that commands name, and where peers come. What each call finds and leaves
/// there is told, where it is known; of a system's files it isn't, since others change them too.
pub trait Site: Peers {
    /// The disk on which a store's files are.
    type Medium: Disk + Drop;

    // This can be done between the one state and the other.
    ghost done: { Self → Deed Self.Medium → Self → Type 0 };

    /// So many bytes at most of the file at a path; none where it can't be read.
    fn read(&mut self, path: &str, most: u64) -> Option<Vec<u8>>
        ensures most { IfSome result (λ bytes. length bytes.items ≤ most) }
        ensures read { done self.old (Read path.now most (bytes_of result)) self.new };

    /// The database at a path and its log, which are made where they are missing, and how they are
    /// used; none where they can't be opened, where a store is to be there and isn't, or where the
    /// system gives no random bytes. That it takes long may be said on standard error.
    fn open(&mut self, path: &str, purpose: Purpose) -> Option<(Files<Self::Medium>, Options)>
        ensures log { IfSome result (λ found. IsTrue (Self.Medium.Disk.is_usable found.0.log)) }
        ensures db { IfSome result (λ found. IsTrue (Self.Medium.Disk.is_usable found.0.db)) }
        ensures opened { done self.old (Opened path.now purpose (files_of result)) self.new };

    /// Takes the files of a store back, where they could be closed.
    fn close(&mut self, files: Option<Files<Self::Medium>>)
        ensures { done self.old (Closed files) self.new };

    /// Listens at a port of 127.0.0.1, for 0 at one that the system chooses, unless it does so
    /// already; the port, or none where it can't be had.
    fn listen(&mut self, port: u16) -> Option<u16>
        ensures { done self.old (Listened port result) self.new };

    // What came of a peer is among what can be done.
    ghost tells: { (old new : Self) (met : Meeting) → Self.Peers.meets old met new
        → Self.done old (Met met) new };
}
