//! Opening a state file: locked, synced, and told from others by its first line.

use lasting_lines::{Split, split_row};
use std::alloc::AllocError;
use std::fs::{self, File, OpenOptions, TryLockError};
use std::io::{self, Read, Write};
use std::os::fd::AsRawFd;
use std::os::unix::fs::{MetadataExt, OpenOptionsExt};

/// Why a state file wasn't opened.
#[derive(Clone, Copy, Debug)]
pub enum OpenError {
    /// A call of the system failed, or the path is no regular file with one name.
    Io(io::Error),
    OutOfMemory,
    /// Another process has it open.
    InUse,
    /// Its first line has another title.
    Foreign,
    /// Its first line names another inode: it is a copy of the file that was written.
    Moved,
}

impl From<io::Error> for OpenError {
    fn from(error: io::Error) -> OpenError {
        OpenError::Io(error)
    }
}

impl From<AllocError> for OpenError {
    fn from(_error: AllocError) -> OpenError {
        OpenError::OutOfMemory
    }
}

/// A state file that is open and locked.
#[derive(Drop)]
pub struct StateFile {
    pub file: File,
    /// The bytes after its first line.
    pub bytes: Vec<u8>,
    /// The length of the first line, with its line feed.
    pub head: u64,
}

impl StateFile {
    /// Opens the file at a path, or makes it with this title, which has no line feed.
    /// `moved` permits another inode: whoever gives it has to know that no other copy of the file is in use.
    pub fn open(
        rt: &HostRuntime,
        path: &str,
        title: &str,
        moved: bool,
    ) -> Result<StateFile, OpenError> {
        let mut file = locked(rt, path)?;
        settle(rt, path, &file)?;
        let inode = file.metadata()?.ino();
        let title = format!(in rt.alloc(); "{title} ")?;
        let line = format!(in rt.alloc(); "{}{inode}\n", title.as_str())?;
        let mut bytes = Vec::new(rt.alloc());
        file.read_to_end(&mut bytes)?;
        let Some(Split { row, rest }) = split_row(&bytes) else {
            return begun(rt, file, &bytes, line.as_bytes());
        };
        if !row.starts_with(title.as_bytes()) {
            return Err(OpenError::Foreign);
        }
        if !moved && !bytes.starts_with(line.as_bytes()) {
            return Err(OpenError::Moved);
        }
        let head = (bytes.len() - rest.len()) as u64;
        let bytes = Vec::from_slice(rt.alloc(), rest)?;
        Ok(StateFile { file, bytes, head })
    }

    /// Cuts the file after so many of its bytes, and syncs it.
    pub fn cut(&mut self, kept: usize) -> io::Result<()> {
        self.file.set_len(self.head.saturating_add(kept as u64))?;
        self.file.sync_all()?;
        self.bytes.truncate(kept);
        Ok(())
    }
}

// A file that is new, or has only a part of its first line, begins with it.
fn begun(
    rt: &HostRuntime,
    mut file: File,
    found: &[u8],
    line: &[u8],
) -> Result<StateFile, OpenError> {
    if !line.starts_with(found) {
        return Err(OpenError::Foreign);
    }
    file.set_len(0)?;
    file.write_all(line)?;
    file.sync_all()?;
    Ok(StateFile {
        file,
        bytes: Vec::new(rt.alloc()),
        head: line.len() as u64,
    })
}

// The file at the path, made for its owner alone if it is missing.
fn locked(rt: &HostRuntime, path: &str) -> Result<File, OpenError> {
    let mut file = OpenOptions::new()
        .read(true)
        .append(true)
        .create(true)
        .mode(0o600)
        .open(rt, path)?;
    // Nothing that is meant for a standard stream that was closed may land in it.
    if file.as_raw_fd() <= 2 {
        file = file.try_clone()?;
    }
    let found = file.metadata()?;
    if !found.is_file() || found.nlink() != 1 {
        return Err(OpenError::Io(io::ErrorKind::Unsupported.into()));
    }
    match file.try_lock() {
        Ok(()) => Ok(file),
        Err(TryLockError::WouldBlock) => Err(OpenError::InUse),
        Err(TryLockError::Error(error)) => Err(OpenError::Io(error)),
    }
}

// What is read from now on, and the name of the file, survives a crash.
fn settle(rt: &HostRuntime, path: &str, file: &File) -> io::Result<()> {
    file.sync_all()?;
    let mut folder = fs::canonicalize(rt, path)?;
    folder.pop();
    File::open(rt, folder.as_str())?.sync_all()
}
