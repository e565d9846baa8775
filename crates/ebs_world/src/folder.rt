// A disk of four files of a folder. It tells nothing, and counts its failures.
ghost use Rattle.std.specs.Prelude.{◌≡◌, ◌≤◌, false, length, IfOk};
ghost use Rattle.ebs_world.specs.inner.Untold.{nothing_told, untold_law};

use crate::area::Area;
use crate::disk::Disk;
use crate::faults::{Failed, raise};
use std::fs::{File, OpenFile, OpenOptions};
use std::io::{ErrorKind, Read, Seek, SeekFrom, Write};
use std::rt::Files;
use std::{fs, io};

const FOLDER: &str = "ebs-data";

/// The files `journal0`, `journal1`, `blocks` and `archive` of a folder. The first call opens them, and makes the
/// folder and the files where they aren't there. A sync is an fdatasync. While they are open the file `journal0` is under
/// an advisory lock of this process, which the system takes off when it ends; a call that finds it under the lock of
/// another one fails before anything is read or written.
#[derive(Drop)]
pub struct FolderDisk<'a, R: Files> {
    rt: &'a R,
    folder: &'static str,
    opened: Option<Opened>,
    faults: u64,
    is_used: bool,
}

impl<'a, R: Files<File = File> + AllocGlobal> FolderDisk<'a, R> {
    /// The folder `ebs-data` under the working directory.
    pub fn new(rt: &'a R) -> Self
        ensures untold { (⟦<FolderDisk<'a, R> as Disk>⟧.view result).tells ≡ false }
        ensures unpromised { (⟦<FolderDisk<'a, R> as Disk>⟧.view result).honest ≡ false }
        ensures faults { (⟦<FolderDisk<'a, R> as Disk>⟧.view result).faults ≡ 0 }
    {
        FolderDisk::at(rt, FOLDER)
    }

    /// A folder of this name under the working directory.
    pub fn at(rt: &'a R, folder: &'static str) -> Self
        ensures untold { (⟦<FolderDisk<'a, R> as Disk>⟧.view result).tells ≡ false }
        ensures unpromised { (⟦<FolderDisk<'a, R> as Disk>⟧.view result).honest ≡ false }
        ensures faults { (⟦<FolderDisk<'a, R> as Disk>⟧.view result).faults ≡ 0 }
    {
        FolderDisk {
            rt,
            folder,
            opened: None,
            faults: 0,
            is_used: false,
        }
    }

    /// How often a call has failed.
    pub fn faults(&self) -> u64
        ensures { (⟦<FolderDisk<'a, R> as Disk>⟧.view self.now).faults ≡ result }
    {
        self.faults
    }

    /// Whether the last call that failed found that another process uses the files.
    pub fn is_used(&self) -> bool {
        self.is_used
    }
}

// Whether a file is under the lock of another process.
fn is_locked(error: &io::Error) -> bool {
    error.kind() == ErrorKind::WouldBlock
}

impl<R: Files<File = File> + AllocGlobal> Disk for FolderDisk<'_, R> {
    ghost view = { λ d. nothing_told d.faults };

    ghost true_to_itself = { λ d. untold_law d.faults };

    fn read(&mut self, area: Area, at: u64, room: &mut [u8]) -> Result<(), Failed> {
        match read_at(self.rt, self.folder, &mut self.opened, area, at, room) {
            Ok(()) => Ok(()),
            Err(error) => {
                self.is_used = is_locked(&error);
                Err(raise(&mut self.faults))
            }
        }
    }

    fn write(&mut self, area: Area, at: u64, piece: &[u8]) -> Result<(), Failed> {
        match write_at(self.rt, self.folder, &mut self.opened, area, at, piece) {
            Ok(()) => Ok(()),
            Err(error) => {
                self.is_used = is_locked(&error);
                Err(raise(&mut self.faults))
            }
        }
    }

    fn sync(&mut self, area: Area) -> Result<(), Failed> {
        match sync_data(self.rt, self.folder, &mut self.opened, area) {
            Ok(()) => Ok(()),
            Err(error) => {
                self.is_used = is_locked(&error);
                Err(raise(&mut self.faults))
            }
        }
    }
}

/// The four files, open for reads and writes.
#[derive(Drop)]
struct Opened {
    journal0: File,
    journal1: File,
    blocks: File,
    archive: File,
}

fn file_of(opened: &mut Opened, area: Area) -> &mut File {
    match area {
        Area::Journal0 => &mut opened.journal0,
        Area::Journal1 => &mut opened.journal1,
        Area::Blocks => &mut opened.blocks,
        Area::Archive => &mut opened.archive,
    }
}

fn open_file<R: Files<File = File> + AllocGlobal>(
    rt: &R,
    folder: &str,
    name: &str,
) -> io::Result<File> {
    let path = format!(in rt.alloc(); "{folder}/{name}")?;
    OpenOptions::new()
        .read(true)
        .write(true)
        .create(true)
        .open(rt, path.as_str())
}

/// Opens the files, of which `journal0` is locked first, and syncs the folders that name what may have been made.
fn open<R: Files<File = File> + AllocGlobal>(rt: &R, folder: &str) -> io::Result<Opened> {
    match fs::create_dir(rt, folder) {
        Ok(()) => {}
        Err(error) if error.kind() == ErrorKind::AlreadyExists => {}
        Err(error) => return Err(error),
    }
    let journal0 = open_file(rt, folder, "journal0")?;
    journal0.try_lock()?;
    let opened = Opened {
        journal0,
        journal1: open_file(rt, folder, "journal1")?,
        blocks: open_file(rt, folder, "blocks")?,
        archive: open_file(rt, folder, "archive")?,
    };
    File::open(rt, folder)?.sync_all()?;
    File::open(rt, ".")?.sync_all()?;
    Ok(opened)
}

fn open_once<'o, R: Files<File = File> + AllocGlobal>(
    rt: &R,
    folder: &str,
    opened: &'o mut Option<Opened>,
) -> io::Result<&'o mut Opened> {
    if opened.is_none() {
        *opened = Some(open(rt, folder)?);
    }
    match opened {
        Some(files) => Ok(files),
        None => Err(io::Error::from(ErrorKind::Other)),
    }
}

/// Fills the room with the bytes of the file from a place on, and with zeros past its end.
fn read_at<R: Files<File = File> + AllocGlobal>(
    rt: &R,
    folder: &str,
    opened: &mut Option<Opened>,
    area: Area,
    at: u64,
    room: &mut [u8],
) -> io::Result<()> {
    let file = file_of(open_once(rt, folder, opened)?, area);
    file.seek(SeekFrom::Start(at))?;
    let count = read_to_end_of(file, room)?;
    room[count..].fill(0);
    Ok(())
}

/// Reads until the room is full or the file ends, and answers how many bytes.
fn read_to_end_of<F: Read>(file: &mut F, room: &mut [u8]) -> io::Result<usize>
    ensures { IfOk result (λ count. count ≤ length room.new) }
{
    let mut count = 0usize;
    for _ in 0..u64::MAX {
        match file.read(&mut room[count..]) {
            Ok(0) => break,
            Ok(more) => count += more,
            Err(error) if error.kind() == ErrorKind::Interrupted => {}
            Err(error) => return Err(error),
        }
    }
    Ok(count)
}

fn write_at<R: Files<File = File> + AllocGlobal>(
    rt: &R,
    folder: &str,
    opened: &mut Option<Opened>,
    area: Area,
    at: u64,
    piece: &[u8],
) -> io::Result<()> {
    let file = file_of(open_once(rt, folder, opened)?, area);
    file.seek(SeekFrom::Start(at))?;
    file.write_all(piece)
}

fn sync_data<R: Files<File = File> + AllocGlobal>(
    rt: &R,
    folder: &str,
    opened: &mut Option<Opened>,
    area: Area,
) -> io::Result<()> {
    file_of(open_once(rt, folder, opened)?, area).sync_data()
}
