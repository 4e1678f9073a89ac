//! The sources of a folder and their memory texts.

use crate::folders::{FolderError, Folders};
use nova_show::Answer;
use std::alloc::Global;

/// A folder, and the names in it in their order.
#[derive(Drop)]
pub struct Folder<'a> {
    path: &'a str,
    pub names: Vec<String>,
}

/// The folder of this path; where it can't be read, the answer says so.
pub fn folder_at<'a, D: Folders>(
    alloc: Global,
    folders: &mut D,
    path: &'a str,
    answer: &mut Answer,
) -> Option<Folder<'a>> {
    let shown = if path.is_empty() { "." } else { path };
    match folders.names(alloc, shown) {
        Ok(names) => sorted(path, names, answer),
        Err(FolderError::NoMemory) => {
            answer.fail();
            None
        }
        Err(FolderError::Unread) => {
            answer.fault(
                shown,
                "this is neither a source, whose name ends in `.nova`, nor a folder that can be read",
            );
            None
        }
    }
}

/// The folder of this path, where there is one that can be read.
pub fn folder_if<'a, D: Folders>(
    alloc: Global,
    folders: &mut D,
    path: &'a str,
    answer: &mut Answer,
) -> Option<Folder<'a>> {
    match folders.names(alloc, path) {
        Ok(names) => sorted(path, names, answer),
        Err(FolderError::NoMemory) => {
            answer.fail();
            None
        }
        Err(FolderError::Unread) => None,
    }
}

fn sorted<'a>(path: &'a str, names: Vec<String>, answer: &mut Answer) -> Option<Folder<'a>> {
    let mut names = names;
    if names.sort().is_err() {
        answer.fail();
        return None;
    }
    Some(Folder { path, names })
}

impl<'a> Folder<'a> {
    /// The path of a file of this name in the folder.
    pub fn path_of(&self, alloc: Global, name: &str, answer: &mut Answer) -> Option<String> {
        let path = self.path;
        let made = if path.is_empty() || path.ends_with('/') {
            format!(in alloc; "{path}{name}")
        } else {
            format!(in alloc; "{path}/{name}")
        };
        match made {
            Ok(path) => Some(path),
            Err(_) => {
                answer.fail();
                None
            }
        }
    }

    /// Whether a file has this name.
    pub fn has(&self, name: &str) -> bool {
        for other in self.names.iter() {
            if other.as_str() == name {
                return true;
            }
        }
        false
    }

    /// Whether a name is that of a memory text for the source `STEM.nova`: it begins with STEM and ends in `.mem` or `.nmem`, and
    /// no other source with a longer name has it.
    pub fn is_memory_of(&self, stem: &str, name: &str) -> bool {
        match case_of(name) {
            Some(base) => self.is_case_of(stem, base),
            None => false,
        }
    }

    /// Whether a name is that of an outcome text for the source `STEM.nova`, and no memory text is beside it.
    pub fn is_lonely(&self, stem: &str, name: &str) -> bool {
        match name.strip_suffix(".out") {
            Some(base) => self.is_case_of(stem, base) && !self.has_memory(base),
            None => false,
        }
    }

    fn is_case_of(&self, stem: &str, base: &str) -> bool {
        base.starts_with(stem) && !self.has_nearer(stem, base)
    }

    // Whether a memory text has this name without its ending.
    fn has_memory(&self, base: &str) -> bool {
        for other in self.names.iter() {
            if case_of(other.as_str()) == Some(base) {
                return true;
            }
        }
        false
    }

    fn has_nearer(&self, stem: &str, base: &str) -> bool {
        for other in self.names.iter() {
            if let Some(other) = other.as_str().strip_suffix(".nova") {
                if other.len() > stem.len() && base.starts_with(other) {
                    return true;
                }
            }
        }
        false
    }
}

/// The name of a memory text without its ending, `.mem` or `.nmem`.
pub fn case_of(name: &str) -> Option<&str> {
    match name.strip_suffix(".mem") {
        Some(base) => Some(base),
        None => name.strip_suffix(".nmem"),
    }
}

/// Whether a name of a memory text is this one, with or without its ending.
pub fn is_case(name: &str, case: &str) -> bool {
    name == case || case_of(name) == Some(case)
}

/// A path as that of its folder, which is empty where it has none, and the name in it.
pub fn split_path(path: &str) -> (&str, &str) {
    match path.rsplit_once('/') {
        Some((folder, name)) => (if folder.is_empty() { "/" } else { folder }, name),
        None => ("", path),
    }
}
