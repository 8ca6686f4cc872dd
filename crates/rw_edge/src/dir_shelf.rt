//! Files of the system, as a shelf.
ghost use Rattle.std.specs.Prelude.{◌≡◌};

use crate::error::Failed;
use crate::shelf::Shelf;
use std::fs;
use std::io::Read;
use std::marker::Model;
use std::rt::Files;

/// How many bytes are asked of the system at once.
const CHUNK: usize = 4096;

/// The files of the current directory. Contracts see the count of faults alone: what a file holds is not told, and a
/// missing one raises the count.
#[derive(Drop)]
pub struct DirShelf<R: Files + Drop> {
    rt: R,
    file: Option<R::File>,
    faults: u64,
}

impl<R: Files + Drop> Model for DirShelf<R> {
    ghost use Rattle.std.specs.Prelude.{ℕ, ◌≤◌};
    ghost use Rattle.rw_edge.specs.Count.{last_count};

    ghost Value = { ℕ };

    ghost view = { λ shelf. shelf.faults };

    ghost invariant = { λ shelf. shelf.faults ≤ last_count };
}

impl<R: Files + Drop> DirShelf<R> {
    /// A shelf of which no file is being read.
    pub fn new(rt: R) -> DirShelf<R>
        ensures { result ≡ 0 }
    {
        DirShelf {
            rt,
            file: None,
            faults: 0,
        }
    }
}

impl<R: Files + Drop> Shelf for DirShelf<R> {
    ghost use Rattle.std.specs.Prelude.{None};

    ghost files = { λ _. None };

    ghost left = { λ _. None };

    ghost faults = { λ shelf. shelf };

    ghost tells_left = { λ _ told. told };

    fn begin(&mut self, name: &str) -> Result<(), Failed> {
        match fs::open(&self.rt, name) {
            Ok(file) => {
                self.file = Some(file);
                Ok(())
            }
            Err(_) => {
                self.file = None;
                self.faults = self.faults.saturating_add(1);
                Err(Failed)
            }
        }
    }

    /// With no file begun, no bytes are left. The bytes are read apart first, so that a refusal changes nothing.
    fn read(&mut self, into: &mut [u8]) -> Result<usize, Failed> {
        let Some(file) = &mut self.file else {
            return Ok(0);
        };
        let mut chunk = [0u8; CHUNK];
        let asked = into.len().min(CHUNK);
        match file.read(&mut chunk[..asked]) {
            Ok(n) => {
                into[..n].copy_from_slice(&chunk[..n]);
                Ok(n)
            }
            Err(_) => {
                self.faults = self.faults.saturating_add(1);
                Err(Failed)
            }
        }
    }
}
