// Reading and writing whole files, so that none is ever seen half written. No contract can say what a file holds: `reference/try_tool.py` tries these.
#![tactic(auto)]

ghost use Rattle.std.specs.Prelude.{◌≡◌, IfOk, string_bytes};
ghost use Rattle.store.specs.Making.{mode_of, beside_of};

use std::alloc::{AllocError, Global};
use std::fs::{File, OpenOptions};
use std::io::{Read, Write};
use std::os::unix::fs::{MetadataExt, OpenOptionsExt};
use std::path::{Path, PathBuf};
use std::random::RandomSource;
use std::{fs, io};

// Whose a file is that is made: the owner's alone, or for all whom the system lets.
#[derive(Clone, Copy)]
pub enum Access {
    Owner,
    All,
}

impl Access {
    fn mode(self) -> u32
        ensures { result ≡ mode_of self }
    {
        match self {
            Access::Owner => 0o600,
            Access::All => 0o666,
        }
    }
}

// All bytes of a file, or one more than most of them: so that who reads them can tell that there are too many, and no file fills the memory.
pub fn read_up_to(rt: &HostRuntime, path: &str, most: u32) -> io::Result<Vec<u8>> {
    read_file(rt, File::open(rt, path)?, most)
}

fn read_file(rt: &HostRuntime, file: File, most: u32) -> io::Result<Vec<u8>> {
    let mut bytes = Vec::new(rt.alloc());
    let _ = file.take(u64::from(most) + 1).read_to_end(&mut bytes)?;
    Ok(bytes)
}

// Makes a file, where none has its name yet.
pub fn create(rt: &HostRuntime, path: &str, bytes: &[u8], access: Access) -> io::Result<()> {
    let beside = write_beside(rt, path, bytes, access)?;
    let placed = place(rt, beside.as_str(), path);
    // Where it was linked, this is its second name.
    let _ = fs::remove_file(rt, beside.as_str());
    placed
}

// A link never takes the place of a file. Where the file system has none, the place is looked at first.
fn place(rt: &HostRuntime, beside: &str, path: &str) -> io::Result<()> {
    match fs::hard_link(rt, beside, path) {
        Ok(()) => {}
        Err(error) if error.kind() == io::ErrorKind::AlreadyExists => return Err(error),
        Err(_) if fs::exists(rt, path)? => {
            return Err(io::Error::from(io::ErrorKind::AlreadyExists));
        }
        Err(_) => fs::rename(rt, beside, path)?,
    }
    sync_folder(rt, path);
    Ok(())
}

// Puts bytes in the place of a file, or makes it. They stand on the disk as a whole before they take the place, so that at any moment the place has all of the old bytes or all of the new.
pub fn replace(rt: &HostRuntime, path: &str, bytes: &[u8], access: Access) -> io::Result<()> {
    let beside = write_beside(rt, path, bytes, access)?;
    if let Err(error) = fs::rename(rt, beside.as_str(), path) {
        let _ = fs::remove_file(rt, beside.as_str());
        return Err(error);
    }
    sync_folder(rt, path);
    Ok(())
}

// Sees that a file can be made there, and leaves none: so that what comes before it is not done in vain.
pub fn expect_room(rt: &HostRuntime, path: &str) -> io::Result<()> {
    if path.is_empty() {
        return Err(io::Error::from(io::ErrorKind::NotFound));
    }
    // Also a link that leads nowhere has the name.
    if fs::symlink_metadata(rt, path).is_ok() {
        return Err(io::Error::from(io::ErrorKind::AlreadyExists));
    }
    let beside = write_beside(rt, path, &[], Access::Owner)?;
    fs::remove_file(rt, beside.as_str())
}

// Writes bytes to a new file in the same folder, and answers its name.
fn write_beside(rt: &HostRuntime, path: &str, bytes: &[u8], access: Access) -> io::Result<String> {
    let beside = name_beside(rt, path)?;
    let file = OpenOptions::new()
        .write(true)
        .create_new(true)
        .mode(access.mode())
        .open(rt, beside.as_str())?;
    if let Err(error) = fill(file, bytes) {
        let _ = fs::remove_file(rt, beside.as_str());
        return Err(error);
    }
    Ok(beside)
}

// A name that no other run takes: of two that made one file, each would take the other's away.
fn name_beside(rt: &HostRuntime, path: &str) -> io::Result<String> {
    let mut bytes = [0; 8];
    rt.fill_bytes(&mut bytes)?;
    Ok(beside(rt.alloc(), path, u64::from_le_bytes(bytes))?)
}

fn beside(alloc: Global, path: &str, number: u64) -> Result<String, AllocError>
    ensures { IfOk result (λ s. string_bytes s ≡ beside_of path.now number) }
{
    format!(in alloc; "{path}.{number}.nazkoiber-new")
}

fn fill(mut file: File, bytes: &[u8]) -> io::Result<()> {
    file.write_all(bytes)?;
    file.sync_all()
}

// The name of a file is on the disk too once its folder is. Not every file system lets a folder be synced, and the bytes are safe by then.
fn sync_folder(rt: &HostRuntime, path: &str) {
    let folder = match Path::new(path).parent() {
        Some(folder) if !folder.as_str().is_empty() => folder.as_str(),
        _ => ".",
    };
    if let Ok(folder) = File::open(rt, folder) {
        let _ = folder.sync_all();
    }
}

// A file that this program alone works on, until this is let go.
#[derive(Drop)]
pub struct Locked {
    path: PathBuf,
    file: File,
}

// Locks a file. The lock is on what the name stood for: where another program has put a new file in its place meanwhile, it is refused too. A symbolic link is followed first, so that what it leads to is replaced. A file with a second name is refused: that name would keep the old bytes.
pub fn lock(rt: &HostRuntime, path: &str) -> io::Result<Locked> {
    let path = fs::canonicalize(rt, path)?;
    let file = File::open(rt, path.as_str())?;
    let locked = file.try_lock();
    let found = file.metadata()?;
    if locked.is_err() || found.ino() != fs::metadata(rt, path.as_str())?.ino() {
        return Err(io::Error::from(io::ErrorKind::ResourceBusy));
    }
    // A folder always has more than one; reading it is refused in other words.
    if found.is_file() && found.nlink() > 1 {
        return Err(io::Error::new(
            io::ErrorKind::InvalidInput,
            "the file has a second name (a hard link), remove one of them",
        ));
    }
    Ok(Locked { path, file })
}

impl Locked {
    pub fn read_up_to(&self, rt: &HostRuntime, most: u32) -> io::Result<Vec<u8>> {
        read_file(rt, self.file.try_clone()?, most)
    }

    // Puts bytes in its place, that the owner alone may read.
    pub fn replace(&self, rt: &HostRuntime, bytes: &[u8]) -> io::Result<()> {
        replace(rt, self.path.as_str(), bytes, Access::Owner)
    }
}
