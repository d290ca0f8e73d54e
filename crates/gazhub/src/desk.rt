//! A site in memory, for tests.
ghost use Rattle.std.specs.Prelude.{option_map};
ghost use Rattle.gazhub.specs.Desks.{IsDone, IsMet, text_at};
ghost use Rattle.gazhub.specs.Sites.{Closed};

use crate::site::{Purpose, Site};
use gaz_http::InMemory;
use gaz_quiet::QuietDisk;
use gaz_stored::Peers;
use sqlite::{Files, Options};
use std::alloc::Global;

/// A register, a change file, a store's files and a peer that may come. Nobody else changes them,
/// so that it is known what is done there.
#[derive(Drop)]
pub struct Desk {
    alloc: Global,
    register: &'static str,
    /// The change file, which stands at every other path than the register's.
    pub change: &'static str,
    files: Option<Files<QuietDisk>>,
    /// What a peer says that is to come.
    pub says: Option<&'static str>,
    /// What the last peer was told.
    pub told: Vec<u8>,
}

impl Desk {
    /// One with this register and new files, at which nobody comes.
    pub fn new(alloc: Global, register: &'static str) -> Desk {
        let files = Files {
            log: QuietDisk::new(alloc),
            db: QuietDisk::new(alloc),
        };
        Desk {
            alloc,
            register,
            change: "",
            files: Some(files),
            says: None,
            told: Vec::new(alloc),
        }
    }
}

impl Peers for Desk {
    type Reader = InMemory<'static>;

    type Writer = Vec<u8>;

    ghost meets = { IsMet
        (λ desk. text_at desk.register.now desk.change.now)
        (λ desk. desk.files) (λ desk. option_map (λ said. said.now) desk.says)
        (λ desk. desk.told.items) };

    fn accept(&mut self, alloc: Global) -> Option<(InMemory<'static>, Vec<u8>)> {
        let said = self.says.take()?;
        Some((InMemory::new(said.as_bytes()), Vec::new(alloc)))
    }

    fn leave(&mut self, _reader: InMemory<'static>, writer: Vec<u8>, _is_whole: bool) {
        self.told = writer;
    }
}

impl Site for Desk {
    type Medium = QuietDisk;

    ghost done = { IsDone
        (λ desk. text_at desk.register.now desk.change.now)
        (λ desk. desk.files) (λ desk. option_map (λ said. said.now) desk.says)
        (λ desk. desk.told.items) };

    ghost tells = { λ _ _ _ met. met };

    fn read(&mut self, path: &str, most: u64) -> Option<Vec<u8>> {
        let text = if path == "hub.toml" {
            self.register
        } else {
            self.change
        };
        let bytes = text.as_bytes();
        let front = bytes.get(..most as usize).unwrap_or(bytes);
        Vec::from_slice(self.alloc, front).ok()
    }

    fn open(&mut self, _path: &str, _purpose: Purpose) -> Option<(Files<QuietDisk>, Options)> {
        let files = self.files.take()?;
        Some((files, Options::new(0)))
    }

    fn close(&mut self, files: Option<Files<QuietDisk>>)
        ensures { IsDone
            (λ desk. text_at desk.register.now desk.change.now)
            (λ desk. desk.files) (λ desk. option_map (λ said. said.now) desk.says)
            (λ desk. desk.told.items) self.old (Closed files) self.new }
    {
        self.files = files;
    }

    fn listen(&mut self, port: u16) -> Option<u16> {
        Some(port)
    }
}
