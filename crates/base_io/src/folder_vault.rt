//! The files of a folder as a vault.

ghost use Rattle.std.specs.Prelude.{⊤, ◌≡◌, ◌≤◌, ◌⊎◌, None, Err, IfOk, length, option_copied};

use crate::{Vault, VaultErr};
use std::alloc::Global;
use std::fs::{FileType, OpenFile, OpenOptions};
use std::io::{Read, Write};
use std::os::unix::fs::{FileTypeExt, OpenOptionsExt};
use std::rt::Files;
use std::{fmt, fs, io};

/// Why a file couldn't be put or read.
#[derive(Clone, Copy)]
pub enum FileCause {
    /// The system said so.
    System(io::Error),
    /// It has more bytes than so many.
    TooLong(usize),
}

/// A file that couldn't be put or read.
#[derive(Drop)]
pub struct FileFailure {
    pub name: String,
    pub cause: FileCause,
}

/// The name and the cause, as `book.img: No space left on device (os error 28)`.
impl fmt::Display for FileFailure {
    fn fmt<W: fmt::Write>(&self, f: &mut fmt::Formatter<W>) -> fmt::Result {
        match self.cause {
            FileCause::System(error) => write!(f, "{}: {error}", self.name),
            FileCause::TooLong(limit) => write!(f, "{}: more than {limit} bytes", self.name),
        }
    }
}

/// Files of one folder. It tells nothing of what they hold. A file is put whole or not at all.
#[derive(Drop)]
pub struct FolderVault<'a, R: Files + AllocGlobal + Drop> {
    rt: R,
    folder: &'a str,
    failed: u64,
    failure: Option<FileFailure>,
}

impl<'a, R: Files + AllocGlobal + Drop> FolderVault<'a, R> {
    ghost use Rattle.base_io.specs.Adapters.{folder_faults, folder_failure};
    ghost use Rattle.base_io.specs.Outside.{CountsFault};

    /// A vault over the files of the current folder that has not failed so far.
    pub fn new(rt: R) -> FolderVault<'a, R>
        ensures faults { folder_faults result ≡ 0 }
        ensures failure { folder_failure result ≡ None }
    {
        FolderVault::in_folder(rt, ".")
    }

    /// A vault over the files of this folder that has not failed so far.
    pub fn in_folder(rt: R, folder: &'a str) -> FolderVault<'a, R>
        ensures faults { folder_faults result ≡ 0 }
        ensures failure { folder_failure result ≡ None }
    {
        FolderVault {
            rt,
            folder,
            failed: 0,
            failure: None,
        }
    }

    /// What couldn't be put or read last, for whom it is to be told; none where there is no such file, or memory
    /// didn't do for its name.
    pub fn failure(&self) -> Option<&FileFailure>
        ensures { option_copied result ≡ folder_failure self.now }
    {
        self.failure.as_ref()
    }

    /// The first bytes of a file, at most so many, for whom its kind is to be told; none where they can't be read.
    pub fn first_bytes(&self, name: &str, most: u64) -> Option<Vec<u8>> {
        read_first(&self.rt, self.folder, name, most).ok()
    }

    // What is answered where the files give an error for this name: it counts as a fault, unless it is want of
    // memory.
    fn refusal(&mut self, name: &str, error: io::Error) -> VaultErr
        ensures known { (result ≡ VaultErr.Memory) ⊎ (result ≡ VaultErr.Failed) }
        ensures later { folder_faults self.old ≤ folder_faults self.new }
        ensures counts { CountsFault {T = ⊤} (Err result) (folder_faults self.old) (folder_faults self.new) }
    {
        if error.kind() == io::ErrorKind::OutOfMemory {
            return VaultErr::Memory;
        }
        self.failed = self.failed.saturating_add(1);
        self.failure = failure_of(self.rt.alloc(), name, FileCause::System(error));
        VaultErr::Failed
    }
}

// None where there is no memory for the name.
fn failure_of(alloc: Global, name: &str, cause: FileCause) -> Option<FileFailure> {
    match String::from_str(alloc, name) {
        Ok(name) => Some(FileFailure { name, cause }),
        Err(_) => None,
    }
}

// The path of a file of a folder.
fn path_of(alloc: Global, folder: &str, name: &str) -> io::Result<String> {
    Ok(format!(in alloc; "{folder}/{name}")?)
}

// An error where this is the type of something else than a file.
fn refuse_others(found: FileType) -> io::Result<()> {
    let message = if found.is_file() {
        return Ok(());
    } else if found.is_dir() {
        "a folder, not a file"
    } else if found.is_fifo() {
        "a FIFO, not a file"
    } else if found.is_socket() {
        "a socket, not a file"
    } else {
        "a device, not a file"
    };
    Err(io::Error::new(io::ErrorKind::InvalidInput, message))
}

// Reads at most so many first bytes, so that a longer file takes no more memory. What stands there is looked at first,
// since to open a FIFO waits for its other end.
fn read_first<R: Files + AllocGlobal>(
    rt: &R,
    folder: &str,
    name: &str,
    most: u64,
) -> io::Result<Vec<u8>> {
    let path = path_of(rt.alloc(), folder, name)?;
    refuse_others(fs::metadata(rt, path.as_str())?.file_type())?;
    let file = fs::open(rt, path.as_str())?;
    let mut bytes = Vec::new(rt.alloc());
    file.take(most).read_to_end(&mut bytes)?;
    Ok(bytes)
}

// The most files of other writers that may stand beside a name. What a writer leaves that was killed counts too.
const OTHERS: u32 = 10_000;

// Its owner may read and write what is put, and the group may read it, less what the umask forbids.
const MODE: u32 = 0o640;

// A file that no other writer has, and its path.
#[derive(Drop)]
struct Draft<F: Drop> {
    path: String,
    file: F,
}

// Makes a file that didn't stand before.
fn create_new<R: Files>(rt: &R, path: &str) -> io::Result<R::File> {
    let mut options = OpenOptions::new();
    options.write(true).create_new(true).mode(MODE);
    options.open(rt, path)
}

// Makes a file beside the one that has the name. No name that the server puts begins with a dot, so none of its
// files is lost under the other name; nor is another writer's, since the file didn't stand before.
fn make_draft<R: Files + AllocGlobal>(
    rt: &R,
    folder: &str,
    name: &str,
) -> io::Result<Draft<R::File>> {
    for number in 0..OTHERS {
        let beside = format!(in rt.alloc(); "{folder}/.{name}.{number}.new")?;
        match create_new(rt, beside.as_str()) {
            Ok(file) => return Ok(Draft { path: beside, file }),
            Err(error) => {
                if error.kind() != io::ErrorKind::AlreadyExists {
                    return Err(error);
                }
            }
        }
    }
    Err(io::ErrorKind::AlreadyExists.into())
}

// The bytes are on the disk when it answers.
fn write_through<F: OpenFile + Write + Drop>(mut file: F, bytes: &[u8]) -> io::Result<()> {
    file.write_all(bytes)?;
    file.sync_all()
}

// An error where something else than a file stands under the path.
fn look_for_others<R: Files>(rt: &R, path: &str) -> io::Result<()> {
    match fs::metadata(rt, path) {
        Ok(found) => refuse_others(found.file_type()),
        Err(error) if error.kind() == io::ErrorKind::NotFound => Ok(()),
        Err(error) => Err(error),
    }
}

// Writes the bytes beside the file that has the name, and then lets them take its place. What takes it is what
// was written, whoever puts under the same name meanwhile, and where it fails nothing is left beside it.
fn replace<R: Files + AllocGlobal>(
    rt: &R,
    folder: &str,
    name: &str,
    bytes: &[u8],
) -> io::Result<()> {
    let path = path_of(rt.alloc(), folder, name)?;
    look_for_others(rt, path.as_str())?;
    let Draft { path: beside, file } = make_draft(rt, folder, name)?;
    let put = write_through(file, bytes).and_then(|()| fs::rename(
        rt,
        beside.as_str(),
        path.as_str(),
    ));
    if put.is_err() {
        let _ = fs::remove_file(rt, beside.as_str());
    }
    put
}

impl<R: Files + AllocGlobal + Drop> Vault for FolderVault<'_, R> {
    ghost use Rattle.base_io.specs.Adapters.{folder_faults};

    ghost names = { λ v. None };

    ghost history = { λ v answers. ⊤ };

    ghost faults = { λ v. folder_faults v };

    fn get(&mut self, name: &str, limit: usize) -> Result<Vec<u8>, VaultErr> {
        let most = (limit as u64).saturating_add(1);
        match read_first(&self.rt, self.folder, name, most) {
            Ok(bytes) => {
                if bytes.len() > limit {
                    self.failure = failure_of(self.rt.alloc(), name, FileCause::TooLong(limit));
                    return Err(VaultErr::TooLong);
                }
                Ok(bytes)
            }
            Err(error) => {
                if error.kind() == io::ErrorKind::NotFound {
                    return Err(VaultErr::Missing);
                }
                Err(self.refusal(name, error))
            }
        }
    }

    fn put(&mut self, name: &str, bytes: &[u8]) -> Result<(), VaultErr> {
        match replace(&self.rt, self.folder, name, bytes) {
            Ok(()) => Ok(()),
            Err(error) => Err(self.refusal(name, error)),
        }
    }
}
