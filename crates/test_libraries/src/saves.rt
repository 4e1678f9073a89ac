// Saves over calls that fail where they are told to.
use nv_outside::saving::{SaveCalls, save_whole};
use std::alloc::Global;
use std::fs::{Metadata, Permissions};
use std::io;
use std::io::ErrorKind;
use std::path::PathBuf;
use std::test::Fail;

// A folder in which so many names are taken, and in which the file is there or not. One of its calls fails so. Each call that is
// done leaves its letter: C for a new file, P for its permissions, W for bytes, S for a sync, R for the new name, X for a removal,
// and O for a file that is written over.
#[derive(Drop)]
struct Folder {
    alloc: Global,
    taken: u32,
    is_there: bool,
    failing: char,
    fault: ErrorKind,
    made: String,
}

// A folder of which nothing was asked yet.
fn folder_with(
    alloc: Global,
    taken: u32,
    is_there: bool,
    failing: char,
    fault: ErrorKind,
) -> Folder {
    Folder {
        alloc,
        taken,
        is_there,
        failing,
        fault,
        made: String::new(alloc),
    }
}

impl Folder {
    // One call.
    fn step(&mut self, letter: char) -> io::Result<()> {
        if letter == self.failing {
            return Err(io::Error::from(self.fault));
        }
        self.made.push(letter)?;
        Ok(())
    }

    // What has the name.
    fn found(&self) -> io::Result<Metadata> {
        if self.is_there {
            Ok(Metadata::of_file(0))
        } else {
            Err(io::Error::from(ErrorKind::NotFound))
        }
    }
}

impl SaveCalls for Folder {
    ghost history = { λ _ _. Unit {0} };

    ghost told = { λ _ _. Unit {0} };

    fn look(&self, _name: &str) -> io::Result<Metadata> {
        self.found()
    }

    fn look_at_link(&self, _name: &str) -> io::Result<Metadata> {
        self.found()
    }

    fn follow(&self, name: &str) -> io::Result<PathBuf> {
        Ok(PathBuf::from_str(self.alloc, name)?)
    }

    fn check_writable(&self, _name: &str) -> io::Result<()> {
        Ok(())
    }

    fn any_number(&self) -> io::Result<u64> {
        Ok(7)
    }

    fn create_new(&mut self, _path: &str) -> io::Result<()> {
        if self.taken > 0 {
            self.taken -= 1;
            return Err(io::Error::from(ErrorKind::AlreadyExists));
        }
        self.step('C')
    }

    fn set_permissions(&mut self, _permissions: Permissions) -> io::Result<()> {
        self.step('P')
    }

    fn write_all(&mut self, _bytes: &[u8]) -> io::Result<()> {
        self.step('W')
    }

    fn sync_all(&mut self) -> io::Result<()> {
        self.step('S')
    }

    fn rename(&mut self, _from: &str, _to: &str) -> io::Result<()> {
        self.step('R')
    }

    fn remove(&mut self, _path: &str) -> io::Result<()> {
        self.step('X')
    }

    fn overwrite(&mut self, _path: &str, _bytes: &[u8]) -> io::Result<()> {
        self.step('O')
    }
}

// Whether a save in this folder is done, and makes these calls.
fn saves(mut it: Folder, done: bool, made: &str) -> bool {
    save_whole(&mut it, "d/o", b"abc").is_ok() == done && it.made.as_str() == made
}

#[test]
fn a_file_is_made_whole_before_it_takes_its_name(rt: HostRuntime) -> Result<(), Fail> {
    let other = ErrorKind::StorageFull;
    assert!(rt; saves(folder_with(rt.alloc(), 0, false, '-', other), true, "CWSR"));
    assert!(rt; saves(folder_with(rt.alloc(), 0, true, '-', other), true, "CPWSR"));
    Ok(())
}

#[test]
fn names_that_are_taken_are_passed_over(rt: HostRuntime) -> Result<(), Fail> {
    let other = ErrorKind::StorageFull;
    assert!(rt;
        saves(
            folder_with(rt.alloc(), 999, false, '-', other),
            true,
            "CWSR"
        )
    );
    assert!(rt; saves(folder_with(rt.alloc(), 1000, false, '-', other), false, ""));
    Ok(())
}

#[test]
fn a_save_that_fails_removes_its_file(rt: HostRuntime) -> Result<(), Fail> {
    let other = ErrorKind::StorageFull;
    assert!(rt; saves(folder_with(rt.alloc(), 0, true, 'C', other), false, ""));
    assert!(rt; saves(folder_with(rt.alloc(), 0, true, 'P', other), false, "CX"));
    assert!(rt; saves(folder_with(rt.alloc(), 0, true, 'W', other), false, "CPX"));
    assert!(rt; saves(folder_with(rt.alloc(), 0, true, 'S', other), false, "CPWX"));
    assert!(rt; saves(folder_with(rt.alloc(), 0, true, 'R', other), false, "CPWSX"));
    Ok(())
}

#[test]
fn a_file_is_written_over_where_its_folder_takes_no_other(rt: HostRuntime) -> Result<(), Fail> {
    let denied = ErrorKind::PermissionDenied;
    assert!(rt; saves(folder_with(rt.alloc(), 0, true, 'C', denied), true, "O"));
    assert!(rt;
        saves(
            folder_with(rt.alloc(), 3, true, 'R', denied),
            true,
            "CPWSXO"
        )
    );
    assert!(rt; saves(folder_with(rt.alloc(), 0, true, 'O', denied), true, "CPWSR"));
    Ok(())
}
