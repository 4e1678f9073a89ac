// The files of the system.
ghost use Rattle.std.specs.Prelude.{◌≡◌, None};
ghost use Rattle.nv_outside.specs.Calls.{counted};
ghost use Rattle.nv_outside.specs.System.{disk_call_count, disk_load_count, disk_save_count};

use crate::files::{Files, Loaded, Saved};
use crate::saving::{SaveCalls, save_whole};
use crate::stream::read_whole;
use std::fs::{File, Metadata, OpenFile, OpenOptions, Permissions};
use std::io::{ErrorKind, Write};
use std::path::PathBuf;
use std::random::RandomSource;
use std::{fs, io, rt};

/// The files of the system, over the runtime that `main` is given. A name is a path. It tells nothing of
/// what the files hold, and keeps one count of failed loads and one of failed saves for all names.
///
/// A save to a name that is absent or a regular file writes a temporary file in the same folder, syncs it
/// and renames it, so a run that is killed leaves the old file, or the new one, whole; of a symbolic link
/// that is done where it leads to. A device or a pipe is written in place, and so are a link that leads
/// nowhere and a file whose folder lets nothing be made or renamed.
#[derive(Drop)]
pub struct DiskFiles<'a, R: rt::Files> {
    rt: &'a R,
    calls: u64,
    load_faults: u64,
    save_faults: u64,
}

impl<'a, R: rt::Files> DiskFiles<'a, R> {
    /// The files of this runtime.
    pub fn new(rt: &'a R) -> DiskFiles<'a, R>
        ensures calls { disk_call_count result ≡ 0 }
        ensures loads { disk_load_count result ≡ 0 }
        ensures saves { disk_save_count result ≡ 0 }
    {
        DiskFiles {
            rt,
            calls: 0,
            load_faults: 0,
            save_faults: 0,
        }
    }
}

impl<'a, R: rt::Files + RandomSource + AllocGlobal> Files for DiskFiles<'a, R> {
    ghost tells = { ⊥ };

    ghost held = { λ _ _. None };

    ghost history = { λ f calls. disk_call_count f ≡ counted calls };

    ghost load_faults = { λ f _. disk_load_count f };

    ghost save_faults = { λ f _. disk_save_count f };

    fn load(&mut self, name: &str, limit: u64, into: &mut Vec<u8>) -> Loaded {
        self.calls = self.calls.saturating_add(1);
        let loaded = match fs::open(self.rt, name) {
            Ok(mut file) => read_whole(&mut file, limit, into),
            Err(_) => Loaded::Failed,
        };
        if loaded == Loaded::Failed {
            self.load_faults = self.load_faults.saturating_add(1);
        }
        loaded
    }

    fn save(&mut self, name: &str, bytes: &[u8]) -> Saved {
        self.calls = self.calls.saturating_add(1);
        let mut calls = DiskCalls {
            rt: self.rt,
            file: None,
        };
        match save_whole(&mut calls, name, bytes) {
            Ok(()) => Saved::Done,
            Err(_) => {
                self.save_faults = self.save_faults.saturating_add(1);
                Saved::Failed
            }
        }
    }
}

// The calls of a save, over the runtime that `main` is given, with the file that was made last.
#[derive(Drop)]
struct DiskCalls<'a, R: rt::Files> {
    rt: &'a R,
    file: Option<R::File>,
}

impl<'a, R: rt::Files + RandomSource + AllocGlobal> SaveCalls for DiskCalls<'a, R> {
    // The system doesn't tell what was called and what it told.
    ghost history = { λ _ _. Unit {0} };

    ghost told = { λ _ _. Unit {0} };

    fn look(&self, name: &str) -> io::Result<Metadata> {
        fs::metadata(self.rt, name)
    }

    fn look_at_link(&self, name: &str) -> io::Result<Metadata> {
        fs::symlink_metadata(self.rt, name)
    }

    fn follow(&self, name: &str) -> io::Result<PathBuf> {
        fs::canonicalize(self.rt, name)
    }

    fn check_writable(&self, name: &str) -> io::Result<()> {
        OpenOptions::new().write(true).open(self.rt, name)?;
        Ok(())
    }

    fn any_number(&self) -> io::Result<u64> {
        let mut random = [0u8; 8];
        self.rt.fill_bytes(&mut random)?;
        Ok(u64::from_le_bytes(random))
    }

    fn create_new(&mut self, path: &str) -> io::Result<()> {
        self.file = Some(File::create_new(self.rt, path)?);
        Ok(())
    }

    fn set_permissions(&mut self, permissions: Permissions) -> io::Result<()> {
        match &self.file {
            Some(file) => file.set_permissions(permissions),
            None => Err(io::Error::from(ErrorKind::NotFound)),
        }
    }

    fn write_all(&mut self, bytes: &[u8]) -> io::Result<()> {
        match &mut self.file {
            Some(file) => file.write_all(bytes),
            None => Err(io::Error::from(ErrorKind::NotFound)),
        }
    }

    fn sync_all(&mut self) -> io::Result<()> {
        match &self.file {
            Some(file) => file.sync_all(),
            None => Err(io::Error::from(ErrorKind::NotFound)),
        }
    }

    fn rename(&mut self, from: &str, to: &str) -> io::Result<()> {
        fs::rename(self.rt, from, to)
    }

    fn remove(&mut self, path: &str) -> io::Result<()> {
        fs::remove_file(self.rt, path)
    }

    fn overwrite(&mut self, path: &str, bytes: &[u8]) -> io::Result<()> {
        fs::write(self.rt, path, bytes)
    }
}
