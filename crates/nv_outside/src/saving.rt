//! How a name of the system comes to have other bytes: the calls that a save makes, and the save that is made of them.
ghost use Rattle.std.specs.Prelude.{◌≡◌, ◌≢◌, ◌++◌, ◌∷◌, [], ℕ, List, IfOk, IfErr, OnOk, Ok, All, MatchOption, codes, decimal, map};
ghost use Rattle.std.specs.IoError.{error_kind};
ghost use Rattle.std.specs.Path.{slash, path_buf_bytes};
ghost use Rattle.std.specs.declared.fs.permissions.Permissions.{Permissions};
ghost use Rattle.nv_outside.specs.Calls.{Asked};
ghost use Rattle.nv_outside.specs.Steps.{CreateNew, SetPermissions, WriteAll, SyncAll, Rename, Remove, Overwrite, Made, Done, made_by, Makes, Told, Looked, LookedAtLink, Leads, MayBeWritten, Refused, IsIn, IsBeside, IsCreated, IsNotCreated, putting, filling, IsCutOff, IsReplaced, IsLeft, IsOfFile, IsFree, IsOfOther, IsAt, HasTaken, HasNotTaken, IsSaved, IsUnsaved};
ghost use Rattle.nv_outside.specs.declared.saving.Way.{Way};

use arrayvec::ArrayString;
use std::fmt::Write as _;
use std::fs::{Metadata, Permissions};
use std::io::ErrorKind;
use std::path::PathBuf;
use std::{fmt, io};

// The longest path that is made for a temporary file, and how many names are tried for one.
const PATH_BYTES: usize = 4096;

const TEMPORARY_NAMES: u32 = 1000;

/// The calls that a save makes. The file that was made last is the one that gets permissions and bytes.
pub trait SaveCalls {
    /// Which calls were made, in their order.
    ghost history: { Self → List Made → Type 0 };

    /// What the answers to questions tell.
    ghost told: { Self → Told → Type 0 };

    /// What has a name, links followed.
    fn look(&self, name: &str) -> io::Result<Metadata>
        ensures told { told self.now (Looked name.now result) }
        ensures refused { IfErr result (λ e. told self.now (Refused (error_kind e))) };

    /// What has a name, which may be a link.
    fn look_at_link(&self, name: &str) -> io::Result<Metadata>
        ensures told { told self.now (LookedAtLink name.now result) }
        ensures refused { IfErr result (λ e. told self.now (Refused (error_kind e))) };

    /// The path to which a link leads.
    fn follow(&self, name: &str) -> io::Result<PathBuf>
        ensures told { IfOk result (λ path. told self.now (Leads name.now (path_buf_bytes path))) }
        ensures refused { IfErr result (λ e. told self.now (Refused (error_kind e))) };

    /// Fails for a file that may not be written.
    fn check_writable(&self, name: &str) -> io::Result<()>
        ensures told { OnOk result (told self.now (MayBeWritten name.now)) }
        ensures refused { IfErr result (λ e. told self.now (Refused (error_kind e))) };

    /// Any number; those of two runs differ most likely.
    fn any_number(&self) -> io::Result<u64>
        ensures refused { IfErr result (λ e. told self.now (Refused (error_kind e))) };

    /// Makes a file under a name that nothing has.
    fn create_new(&mut self, path: &str) -> io::Result<()>
        ensures made { Asked history self.old self.new (made_by (CreateNew path.now) result ∷ []) };

    /// Gives permissions to the file that was made last.
    fn set_permissions(&mut self, permissions: Permissions) -> io::Result<()>
        ensures made { Asked history self.old self.new (made_by (SetPermissions permissions) result ∷ []) };

    /// Writes bytes behind those that the file has.
    fn write_all(&mut self, bytes: &[u8]) -> io::Result<()>
        ensures made { Asked history self.old self.new (made_by (WriteAll bytes.now) result ∷ []) };

    /// Sees that the file has reached the disk.
    fn sync_all(&mut self) -> io::Result<()>
        ensures made { Asked history self.old self.new (made_by SyncAll result ∷ []) };

    /// Gives a file another name, which it takes from what has it.
    fn rename(&mut self, from: &str, to: &str) -> io::Result<()>
        ensures made { Asked history self.old self.new (made_by (Rename from.now to.now) result ∷ []) };

    /// Removes a file.
    fn remove(&mut self, path: &str) -> io::Result<()>
        ensures made { Asked history self.old self.new (made_by (Remove path.now) result ∷ []) };

    /// Writes bytes in place of those that a file has; makes it where it isn't there.
    fn overwrite(&mut self, path: &str, bytes: &[u8]) -> io::Result<()>
        ensures made { Asked history self.old self.new (made_by (Overwrite path.now bytes.now) result ∷ []) };
}

// How a file comes to have other bytes.
#[derive(Drop)]
enum Way {
    // A new file takes the name, which nothing has.
    New,
    // A new file with these permissions takes the name of a regular one.
    Replace(Permissions),
    // What has the name is written to.
    InPlace,
}

// How a file of this name is written, by looks at what has it.
fn way_of<C: SaveCalls>(calls: &C, name: &str) -> io::Result<Way>
    ensures new { result ≡ Ok Way.New → IsFree (C.told calls.now) name.now }
    ensures replace { (p : Permissions) → result ≡ Ok (Way.Replace p) → IsOfFile (C.told calls.now) name.now p }
    ensures in_place { result ≡ Ok Way.InPlace → IsOfOther (C.told calls.now) name.now }
    ensures refused { IfErr result (λ e. C.told calls.now (Refused (error_kind e))) }
{
    match calls.look(name) {
        Ok(seen) => {
            if seen.is_file() {
                Ok(Way::Replace(seen.permissions()))
            } else {
                Ok(Way::InPlace)
            }
        }
        Err(e) => {
            if e.kind() != ErrorKind::NotFound {
                return Err(e);
            }
            match calls.look_at_link(name) {
                // A link that leads nowhere: the file that it names is made.
                Ok(_) => Ok(Way::InPlace),
                Err(e) => {
                    if e.kind() != ErrorKind::NotFound {
                        return Err(e);
                    }
                    Ok(Way::New)
                }
            }
        }
    }
}

/// Makes these bytes the whole of a file. A regular file, or none, is replaced by a new one, of a link that to which it
/// leads; a device or a pipe is written in place, and so are a link that leads nowhere and a file whose folder lets nothing
/// be made or renamed.
pub fn save_whole<C: SaveCalls>(calls: &mut C, name: &str, bytes: &[u8]) -> io::Result<()>
    ensures saved { OnOk result (Makes C.history calls.old calls.new (IsSaved (C.told calls.old) name.now bytes.now)) }
    ensures unsaved { IfErr result (λ e. Makes C.history calls.old calls.new (IsUnsaved (C.told calls.old) (error_kind e) name.now bytes.now)) }
{
    let way = way_of(calls, name)?;
    match way {
        Way::New => replace(calls, name, bytes, None),
        Way::Replace(permissions) => {
            let target = target_of(calls, name)?;
            match target {
                Some(path) => replace(calls, path.as_str(), bytes, Some(permissions)),
                None => replace(calls, name, bytes, Some(permissions)),
            }
        }
        Way::InPlace => calls.overwrite(name, bytes),
    }
}

// Where a link of this name leads to a regular file, the path of that. A file that may not be written may not be replaced
// either.
fn target_of<C: SaveCalls>(calls: &C, name: &str) -> io::Result<Option<PathBuf>>
    ensures at { IfOk result (λ target. MatchOption target (IsAt (C.told calls.now) name.now name.now) (λ path. IsAt (C.told calls.now) name.now (path_buf_bytes path))) }
    ensures writable { OnOk result (C.told calls.now (MayBeWritten name.now)) }
    ensures refused { IfErr result (λ e. C.told calls.now (Refused (error_kind e))) }
{
    calls.check_writable(name)?;
    let link = calls.look_at_link(name)?;
    if link.is_symlink() {
        let path = calls.follow(name)?;
        Ok(Some(path))
    } else {
        Ok(None)
    }
}

// Writes a temporary file beside a file, and gives it the file's name. Where the folder doesn't let it, the
// file is written in place.
fn replace<C: SaveCalls>(
    calls: &mut C,
    name: &str,
    bytes: &[u8],
    permissions: Option<Permissions>,
) -> io::Result<()>
    ensures taken { OnOk result (Makes C.history calls.old calls.new (HasTaken permissions name.now bytes.now)) }
    ensures not_taken { IfErr result (λ e. Makes C.history calls.old calls.new (HasNotTaken (C.told calls.old) (error_kind e) permissions name.now bytes.now)) }
{
    let first = calls.any_number()?;
    match replaced(calls, first, name, bytes, permissions) {
        Ok(()) => Ok(()),
        Err(e) if e.kind() == ErrorKind::PermissionDenied => calls.overwrite(name, bytes),
        Err(e) => Err(e),
    }
}

// Writes a temporary file beside a file, and gives it the file's name; where that fails, none stays.
fn replaced<C: SaveCalls>(
    calls: &mut C,
    first: u64,
    name: &str,
    bytes: &[u8],
    permissions: Option<Permissions>,
) -> io::Result<()>
    ensures whole { OnOk result (Makes C.history calls.old calls.new (IsReplaced permissions name.now bytes.now)) }
    ensures left { IfErr result (λ e. Makes C.history calls.old calls.new (IsLeft 1000 (error_kind e) permissions name.now bytes.now)) }
{
    let temporary = create_temporary(calls, first, name)?;
    let path = temporary.as_str();
    match fill(calls, path, name, bytes, permissions) {
        Ok(()) => Ok(()),
        Err(e) => {
            let _ = calls.remove(path);
            Err(e)
        }
    }
}

// Puts bytes into the new file at a path, sees that they have reached the disk, and gives it a name.
fn fill<C: SaveCalls>(
    calls: &mut C,
    path: &str,
    name: &str,
    bytes: &[u8],
    permissions: Option<Permissions>,
) -> io::Result<()>
    ensures filled { OnOk result (Asked C.history calls.old calls.new (map Done (filling permissions bytes.now path.now name.now))) }
    ensures cut_off { IfErr result (λ e. Makes C.history calls.old calls.new (IsCutOff (error_kind e) (filling permissions bytes.now path.now name.now))) }
{
    match permissions {
        Some(permissions) => {
            calls.set_permissions(permissions)?;
            put(calls, path, name, bytes)
        }
        None => put(calls, path, name, bytes),
    }
}

// The same, with the permissions that it has.
fn put<C: SaveCalls>(calls: &mut C, path: &str, name: &str, bytes: &[u8]) -> io::Result<()>
    ensures filled { OnOk result (Asked C.history calls.old calls.new (map Done (putting bytes.now path.now name.now))) }
    ensures cut_off { IfErr result (λ e. Makes C.history calls.old calls.new (IsCutOff (error_kind e) (putting bytes.now path.now name.now))) }
{
    calls.write_all(bytes)?;
    calls.sync_all()?;
    calls.rename(path, name)
}

// The path of a new file in the folder of a file. The names begin at a random number, so what killed runs
// left takes none of them.
fn create_temporary<C: SaveCalls>(
    calls: &mut C,
    first: u64,
    name: &str,
) -> io::Result<ArrayString<PATH_BYTES>>
    ensures created { IfOk result (λ path. Makes C.history calls.old calls.new (IsCreated name.now path.bytes)) }
    ensures not_created { IfErr result (λ e. Makes C.history calls.old calls.new (IsNotCreated 1000 (error_kind e) name.now)) }
{
    for number in 0..TEMPORARY_NAMES {
        let path = temporary_path(name, first, number)?;
        match calls.create_new(path.as_str()) {
            Ok(()) => return Ok(path),
            Err(e) if e.kind() == ErrorKind::AlreadyExists => {}
            Err(e) => return Err(e),
        }
    }
    Err(io::Error::from(ErrorKind::AlreadyExists))
}

// The path of a temporary file in the folder of a file, under another name than the file's.
fn temporary_path(name: &str, first: u64, number: u32) -> io::Result<ArrayString<PATH_BYTES>>
    ensures beside { IfOk result (λ path. IsBeside name.now path.bytes) }
    ensures long { IfErr result (λ e. error_kind e ≡ ErrorKind.InvalidFilename) }
{
    let (folder, own) = parts_of(name);
    let end = other_end(own);
    let mut path = ArrayString::new();
    match write_path(&mut path, folder, first, number, end) {
        Ok(()) => Ok(path),
        Err(_) => Err(io::Error::from(ErrorKind::InvalidFilename)),
    }
}

// Writes the path of a temporary file in a folder.
fn write_path(
    path: &mut ArrayString<PATH_BYTES>,
    folder: &str,
    first: u64,
    number: u32,
    end: &str,
) -> fmt::Result
    ensures { OnOk result (path.new.bytes ≡ path.old.bytes ++ (folder.now ++ (codes "/.novac-" ++ (decimal first ++ (codes "-" ++ (decimal number ++ (codes "." ++ end.now))))))) }
{
    write!(path, "{folder}/.novac-{first}-{number}.{end}")
}

// The folder of a path and the name there.
fn parts_of(path: &str) -> (&str, &str)
    ensures { IsIn result.0.now result.1.now path.now }
{
    match path.rsplit_once('/') {
        Some(parts) => parts,
        None => (".", path),
    }
}

// An end that a name doesn't have.
fn other_end(name: &str) -> &'static str
    ensures other { (front : List ℕ) → name.now ≢ front ++ result.now }
    ensures plain { All (λ byte. byte ≢ slash) result.now }
{
    if name.ends_with('p') { "new" } else { "tmp" }
}
