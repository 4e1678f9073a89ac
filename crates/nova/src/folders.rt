//! The folders of the system.

use nova_actions::{FolderError, Folders};
use std::alloc::Global;
use std::io::ErrorKind;
use std::{fs, io, rt};

/// The folders of the system, over the runtime that `main` is given. A name that isn't text is left out.
#[derive(Drop)]
pub struct DiskFolders<'a, R: rt::Files> {
    rt: &'a R,
}

impl<'a, R: rt::Files> DiskFolders<'a, R> {
    /// The folders of this runtime.
    pub fn new(rt: &'a R) -> DiskFolders<'a, R> {
        DiskFolders { rt }
    }
}

impl<'a, R: rt::Files + AllocGlobal + Clone + Drop> Folders for DiskFolders<'a, R> {
    fn names(&mut self, alloc: Global, folder: &str) -> Result<Vec<String>, FolderError> {
        let entries = match fs::read_dir(self.rt, folder) {
            Ok(entries) => entries,
            Err(error) => return Err(folder_error(error)),
        };
        let mut names = Vec::new(alloc);
        for entry in entries {
            match entry {
                Ok(entry) => names.push(String::from_str(alloc, entry.file_name())?)?,
                Err(error) if error.kind() == ErrorKind::InvalidFilename => {}
                Err(error) => return Err(folder_error(error)),
            }
        }
        Ok(names)
    }
}

fn folder_error(error: io::Error) -> FolderError {
    if error.kind() == ErrorKind::OutOfMemory {
        FolderError::NoMemory
    } else {
        FolderError::Unread
    }
}
