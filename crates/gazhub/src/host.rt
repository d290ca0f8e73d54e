//! The system's own files, and a port of it.
ghost use Rattle.std.specs.Prelude.{◌≤◌, ⊤, IfOk, length};

use crate::port::{accepted, part};
use crate::site::{Purpose, Site};
use gaz_stored::Peers;
use sqlite::{Files, Options, Unknown};
use sqlite_std_file::{FileFrom, open};
use std::alloc::Global;
use std::fs;
use std::io::{self, BufWriter, IsTerminal, Read};
use std::net::{Ipv4Addr, TcpListener, TcpStream};
use std::random::RandomSource;

/// The bytes of a page of a store's file.
const PAGE_BYTES: u64 = 4096;

/// The fewest pages that are kept at hand.
const FEWEST_PAGES: u64 = 2_000;

/// The most pages that are kept at hand: 256 MB.
const MOST_PAGES: u64 = 64_000;

/// So many bytes of a store's file take about a second to open, since it is read through.
const BYTES_A_SECOND: u64 = 20_000_000;

// The pages that are kept at hand: all of a file of so many bytes and half as many more, where they
// aren't too many.
fn pages_for(bytes: u64) -> usize {
    let pages = bytes / PAGE_BYTES;
    pages
        .saturating_add(pages / 2)
        .clamp(FEWEST_PAGES, MOST_PAGES) as usize
}

/// A number that nobody foresees, for a seed or for the salts of a store's log.
pub fn random(rt: &impl RandomSource) -> io::Result<u64> {
    let mut bytes = [0; 8];
    rt.fill_bytes(&mut bytes)?;
    Ok(u64::from_le_bytes(bytes))
}

/// The system on which the program runs.
#[derive(Drop)]
pub struct Host<'a> {
    rt: &'a HostRuntime,
    // none where nothing is listened at
    listener: Option<TcpListener>,
}

impl<'a> Host<'a> {
    /// The system, listening at no port.
    pub fn of(rt: &'a HostRuntime) -> Host<'a> {
        Host { rt, listener: None }
    }

    // So many bytes at most of a file.
    fn read_some(&self, path: &str, most: u64) -> io::Result<Vec<u8>>
        ensures { IfOk result (λ bytes. length bytes.items ≤ most) }
    {
        let mut bytes = Vec::new(self.rt.alloc());
        fs::open(self.rt, path)?.take(most).read_to_end(&mut bytes)?;
        // They are no more, which of a file no clause of std's says.
        bytes.truncate(most as usize);
        Ok(bytes)
    }

    // Says what is being done with a store's file of so many bytes, where that takes over a second
    // and a person waits: standard error is a terminal. What can't be said is lost.
    fn announce(&self, bytes: u64, what: &str) {
        if bytes > BYTES_A_SECOND && self.rt.stderr().is_terminal() {
            let _lost = eprintln!(self.rt; "{what} ..");
        }
    }

    // How the files of a store at a path are used. What a migration writes stays at hand as long as
    // there is room, or the log would grow to many times the file.
    fn options(&self, path: &str, purpose: Purpose) -> Option<Options> {
        let bytes = match purpose {
            Purpose::Make => 0,
            Purpose::Use | Purpose::Migrate => fs::metadata(self.rt, path).ok()?.len(),
        };
        let mut options = Options::new(random(self.rt).ok()?);
        if matches!(purpose, Purpose::Migrate) {
            options.cache_pages = pages_for(bytes.saturating_mul(2));
            options.spill_pages = options.cache_pages;
            self.announce(bytes, "migrating");
        } else {
            options.cache_pages = pages_for(bytes);
            self.announce(bytes, "opening");
        }
        Some(options)
    }
}

// Who comes, and what they say and are told, no clause of std's says.
impl Peers for Host<'_> {
    type Reader = TcpStream;

    type Writer = BufWriter<TcpStream>;

    ghost meets = { λ _ _ _. ⊤ };

    fn accept(&mut self, alloc: Global) -> Option<(TcpStream, BufWriter<TcpStream>)> {
        accepted(alloc, self.listener.as_ref()?).ok()
    }

    fn leave(&mut self, reader: TcpStream, _writer: BufWriter<TcpStream>, is_whole: bool) {
        let mut reader = reader;
        if is_whole {
            part(&mut reader);
        }
    }
}

impl Site for Host<'_> {
    type Medium = FileFrom<Unknown>;

    ghost done = { λ _ _ _. ⊤ };

    ghost tells = { λ _ _ _ _. tt };

    fn read(&mut self, path: &str, most: u64) -> Option<Vec<u8>> {
        self.read_some(path, most).ok()
    }

    fn open(&mut self, path: &str, purpose: Purpose) -> Option<(Files<Self::Medium>, Options)> {
        let options = self.options(path, purpose)?;
        let files = open(self.rt, path, Unknown).ok()?;
        Some((files, options))
    }

    // What is closed stays at its path.
    fn close(&mut self, files: Option<Files<Self::Medium>>)
        ensures { ⊤ }
    {
        drop(files);
    }

    fn listen(&mut self, port: u16) -> Option<u16> {
        if self.listener.is_none() {
            self.listener = TcpListener::bind(self.rt, (Ipv4Addr::LOCALHOST, port)).ok();
        }
        let listener = self.listener.as_ref()?;
        Some(listener.local_addr().ok()?.port())
    }
}
