//! Folders, by the names of their files.

use std::alloc::{AllocError, AllocFailed, Global};

/// Why the names of a folder aren't known.
#[derive(Clone, Copy, Debug, PartialEq, Eq)]
pub enum FolderError {
    NoMemory,
    /// There is no such folder, or it can't be read.
    Unread,
}

impl From<AllocError> for FolderError {
    fn from(_error: AllocError) -> FolderError {
        FolderError::NoMemory
    }
}

impl<T: Drop> From<AllocFailed<T>> for FolderError {
    fn from(_error: AllocFailed<T>) -> FolderError {
        FolderError::NoMemory
    }
}

/// Folders of files.
pub trait Folders {
    /// The names of the files and folders in a folder, in any order.
    fn names(&mut self, alloc: Global, folder: &str) -> Result<Vec<String>, FolderError>;
}
