// Files that are replaced whole, and what is said where that fails.
ghost use Rattle.std.specs.Prelude.{◌≡◌, IfOk, MatchResult};
ghost use Rattle.std.specs.IoError.{error_kind};
ghost use Rattle.std.specs.Fs.{IsFile, file_type, metadata_len, metadata_mode, permissions_mode};

use crate::given::{PATH, text_of};
use crate::page::Page;
use crate::text::fail;
use std::fmt::Display;
use std::fs::{File, Metadata, OpenOptions, Permissions};
use std::io::{Error, ErrorKind, Write};
use std::os::unix::fs::{OpenOptionsExt, PermissionsExt};
use std::random::RandomSource;
use std::{fs, io};

// A failure that standard error has been told of.
#[derive(Clone, Copy, Debug, PartialEq, Eq)]
pub struct Reported(());

impl Reported {
    // Says what is wrong.
    // Touches the outside alone: no clause can say what that gives or takes.
    pub fn saying(rt: &HostRuntime, what: impl Display + Drop) -> Reported {
        let _ = eprintln!(rt; "error: {what}");
        Reported(())
    }

    // Says what failed, and how.
    // Touches the outside alone: no clause can say what that gives or takes.
    pub fn failing(rt: &HostRuntime, what: &[u8], error: &Error) -> Reported {
        fail(rt, what, error);
        Reported(())
    }
}

// The path of the file that is to be read and replaced: of the one behind a link, so that both are of one file also where the link
// is turned in between. No other path is followed: above it there may be a folder whose name is no text, or one that may not be
// searched. A link that cannot be followed stays as it is.
// Touches the outside alone: no clause can say what that gives or takes.
pub fn target(rt: &HostRuntime, path: &[u8]) -> Page<PATH> {
    let mut page = Page::new();
    match behind_link(rt, path) {
        Some(file) => page.text(file.as_bytes()),
        None => page.text(path),
    }
    page
}

// The whole path of the file behind a link; none where the path is no link, or one that cannot be followed.
fn behind_link(rt: &HostRuntime, path: &[u8]) -> Option<String> {
    let path = text_of(path).ok()?;
    if !is_link(rt, path) {
        return None;
    }
    // Nor is one that the system itself does not follow.
    fs::metadata(rt, path).ok()?;
    Some(fs::canonicalize(rt, path).ok()?.into_string())
}

fn is_link(rt: &HostRuntime, path: &str) -> bool {
    fs::symlink_metadata(rt, path).is_ok_and(|found| found.is_symlink())
}

// Replaces the file at `path`, or the one behind a link there, by these bytes, which are as many as it has.
// Touches the outside alone: no clause can say what that gives or takes.
pub fn replace(rt: &HostRuntime, path: &[u8], bytes: &[u8]) -> Result<(), Reported> {
    replace_target(rt, target(rt, path).used(), bytes)
}

// Replaces the file at `path`, which is no link, by these bytes, which are as many as it has. They are written to a new file beside
// it, of the same mode, which then takes its name. Where that fails the old file stays.
// Touches the outside alone: no clause can say what that gives or takes.
pub fn replace_target(rt: &HostRuntime, path: &[u8], bytes: &[u8]) -> Result<(), Reported> {
    replace_at(rt, path, bytes).map_err(|error| Reported::failing(rt, path, &error))
}

fn replace_at(rt: &HostRuntime, path: &[u8], bytes: &[u8]) -> io::Result<()> {
    let path = text_of(path)?;
    let mode = plain_mode(rt, path, bytes.len())?;
    let mut page = Page::<PATH>::new();
    page.text(path.as_bytes());
    page.text(b".");
    page.long(chance(rt));
    if page.is_full() {
        return Err(Error::from(ErrorKind::InvalidFilename));
    }
    let name = text_of(page.used())?;
    write_new(rt, name, mode, bytes)?;
    take_name(rt, name, path)
}

// The mode of the plain file at `path`, which is no link, may be written and has `n` bytes.
fn plain_mode(rt: &HostRuntime, path: &str, n: usize) -> io::Result<Permissions> {
    if is_link(rt, path) {
        let message = "a link that is not followed";
        return Err(Error::new(ErrorKind::InvalidInput, message));
    }
    let file = OpenOptions::new().read(true).write(true).open(rt, path)?;
    mode_of(&file.metadata()?, n)
}

// The mode of what was found, if that is a plain file of `n` bytes. A pipe or a device is none.
fn mode_of(found: &Metadata, n: usize) -> io::Result<Permissions>
    ensures mode { IfOk result (λ mode. permissions_mode mode ≡ metadata_mode found.now) }
    ensures plain { MatchResult result (λ _. IsFile (file_type found.now) × (metadata_len found.now ≡ n))
        (λ e. (IsFile (file_type found.now) → metadata_len found.now ≡ n → ⊥) × (error_kind e ≡ ErrorKind.InvalidInput)) }
{
    if found.is_file() && found.len() == n as u64 {
        Ok(found.permissions())
    } else {
        let message = "no plain file of the bytes that were read";
        Err(Error::new(ErrorKind::InvalidInput, message))
    }
}

// A random number.
fn chance(rt: &HostRuntime) -> u64 {
    let mut bytes = [0u8; 8];
    let _ = rt.fill_bytes(&mut bytes);
    u64::from_le_bytes(bytes)
}

// Makes a file of this name, and has the bytes reach its device. Where that fails no such file is left.
fn write_new(rt: &HostRuntime, name: &str, mode: Permissions, bytes: &[u8]) -> io::Result<()> {
    let mut file = OpenOptions::new()
        .write(true)
        .create_new(true)
        .mode(mode.mode())
        .open(rt, name)?;
    // What the umask took of the mode. A system that lets nobody set one gives each file its own.
    let _ = file.set_permissions(mode);
    write_synced(&mut file, bytes).map_err(|error| undone(rt, name, error))
}

fn write_synced(file: &mut File, bytes: &[u8]) -> io::Result<()> {
    file.write_all(bytes)?;
    file.sync_all()
}

// Gives the new file the name of the old one, and has that reach the device too. Where it fails the new file is removed.
fn take_name(rt: &HostRuntime, name: &str, path: &str) -> io::Result<()> {
    fs::rename(rt, name, path).map_err(|error| undone(rt, name, error))?;
    sync_folder(rt, path);
    Ok(())
}

// Removes the new file of this name, for this error.
fn undone(rt: &HostRuntime, name: &str, error: Error) -> Error
    ensures { result ≡ error }
{
    let _ = fs::remove_file(rt, name);
    error
}

// Has the folder of a file reach the device, if it can be opened.
fn sync_folder(rt: &HostRuntime, path: &str) {
    let folder = match path.rsplit_once('/') {
        None => ".",
        Some(("", _)) => "/",
        Some((folder, _)) => folder,
    };
    if let Ok(file) = File::open(rt, folder) {
        let _ = file.sync_all();
    }
}
