//! The files of the system.

ghost use Rattle.std.specs.Prelude.{None, false};

use crate::folder::{FileError, Folder, Reason};
use std::alloc::Global;
use std::fs::{Files, OpenFile, OpenOptions};
use std::io::{Read, Write};
use std::{fs, io};

/// A file of the system that is being written.
#[derive(Drop)]
pub struct DiskSheet<F> {
    file: F,
    /// The name that it has until it takes the place of another. None for a device or a pipe.
    beside: Option<String>,
    /// Why something wasn't written on it.
    lost: Option<io::Error>,
}

/// An error as this one, of which the words are the system's.
fn like(error: &io::Error) -> io::Error {
    match error.raw_os_error() {
        Some(code) => io::Error::from_raw_os_error(code),
        None => io::Error::from(error.kind()),
    }
}

impl<F> DiskSheet<F> {
    /// Keeps why something wasn't written, if that is so and it isn't tried again.
    fn keep(&mut self, done: &io::Result<usize>) {
        if let Err(error) = done
            && error.kind() != io::ErrorKind::Interrupted
        {
            self.lost = Some(like(error));
        }
    }
}

impl<F: Write> Write for DiskSheet<F> {
    fn write(&mut self, buf: &[u8]) -> io::Result<usize> {
        let done = self.file.write(buf);
        self.keep(&done);
        done
    }

    fn flush(&mut self) -> io::Result<()> {
        self.file.flush()
    }
}

/// The files of the system. Of what they hold nothing is known.
#[derive(Drop)]
pub struct Disk<'a, H> {
    files: &'a H,
}

impl<'a, H: Files> Disk<'a, H> {
    pub fn new(files: &'a H) -> Disk<'a, H> {
        Disk { files }
    }
}

/// The file that a name leads to, over links, or the name where there is none.
fn real_name<H: Files>(files: &H, alloc: Global, name: &str) -> Result<String, FileError> {
    match files.canonicalize(alloc, name) {
        Ok(path) => Ok(String::from_str(alloc, path.as_str())?),
        Err(_) => Ok(String::from_str(alloc, name)?),
    }
}

/// Whether the name is that of a device or a pipe, which is written to as it stands.
fn is_device<H: Files>(files: &H, name: &str) -> bool {
    match fs::metadata(files, name) {
        Ok(found) => !found.is_file() && !found.is_dir(),
        Err(_) => false,
    }
}

/// Makes a new file beside the other. Where one is there already, it is named.
fn open_beside<H: Files>(files: &H, alloc: Global, beside: &str) -> Result<H::File, FileError> {
    let mut options = OpenOptions::new();
    options.write(true).create_new(true);
    match options.open(files, beside) {
        Ok(file) => Ok(file),
        Err(error) if error.kind() == io::ErrorKind::AlreadyExists => {
            Err(FileError::Failed(Reason {
                file: Some(String::from_str(alloc, beside)?),
                error,
            }))
        }
        Err(error) => Err(FileError::from(error)),
    }
}

fn open_device<H: Files>(files: &H, name: &str) -> io::Result<H::File> {
    OpenOptions::new().write(true).open(files, name)
}

/// Gives a file the rights of the one of this name, where that is there.
fn take_rights<H: Files>(files: &H, file: &H::File, name: &str) -> io::Result<()> {
    match fs::metadata(files, name) {
        Ok(found) => file.set_permissions(found.permissions()),
        Err(_) => Ok(()),
    }
}

/// Removes a new file where there was an error with it.
fn clear<H: Files, T: Drop>(files: &H, beside: &str, done: io::Result<T>) -> io::Result<T> {
    if done.is_err() {
        let _ = fs::remove_file(files, beside);
    }
    done
}

/// Writes a new file, and puts it in the place of the one of this name.
fn put<H: Files>(
    files: &H,
    mut file: H::File,
    beside: &str,
    name: &str,
    bytes: &[u8],
) -> io::Result<()> {
    take_rights(files, &file, name)?;
    file.write_all(bytes)?;
    file.sync_all()?;
    fs::rename(files, beside, name)
}

/// Writes a new file beside the other, with the rights of that where it is there, and puts it in its place.
fn write_beside<H: Files>(
    files: &H,
    alloc: Global,
    beside: &str,
    name: &str,
    bytes: &[u8],
) -> Result<(), FileError> {
    let file = open_beside(files, alloc, beside)?;
    Ok(clear(files, beside, put(files, file, beside, name, bytes))?)
}

fn write_device<H: Files>(files: &H, name: &str, bytes: &[u8]) -> io::Result<()> {
    open_device(files, name)?.write_all(bytes)
}

fn replace_file<H: Files>(
    files: &H,
    alloc: Global,
    name: &str,
    bytes: &[u8],
) -> Result<(), FileError> {
    let real = real_name(files, alloc, name)?;
    if is_device(files, &real) {
        return Ok(write_device(files, &real, bytes)?);
    }
    let beside = format!(in alloc; "{real}.c62-new")?;
    write_beside(files, alloc, &beside, &real, bytes)
}

/// Makes a new file beside the other, with the rights of that where it is there.
fn begin_beside<H: Files>(
    files: &H,
    alloc: Global,
    beside: &str,
    name: &str,
) -> Result<H::File, FileError> {
    let file = open_beside(files, alloc, beside)?;
    clear(files, beside, take_rights(files, &file, name))?;
    Ok(file)
}

fn begin_file<H: Files>(
    files: &H,
    alloc: Global,
    name: &str,
) -> Result<DiskSheet<H::File>, FileError> {
    let real = real_name(files, alloc, name)?;
    if is_device(files, &real) {
        return Ok(DiskSheet {
            file: open_device(files, &real)?,
            beside: None,
            lost: None,
        });
    }
    let beside = format!(in alloc; "{real}.c62-trace")?;
    Ok(DiskSheet {
        file: begin_beside(files, alloc, &beside, &real)?,
        beside: Some(beside),
        lost: None,
    })
}

/// Removes a file that was written beside another.
fn remove_beside<H: Files>(files: &H, beside: Option<String>) {
    if let Some(beside) = beside {
        let _ = fs::remove_file(files, beside.as_str());
    }
}

/// Puts a new file in the place of the one of this name.
fn place<H: Files>(
    files: &H,
    alloc: Global,
    file: &H::File,
    beside: &str,
    name: &str,
) -> Result<(), FileError> {
    file.sync_all()?;
    let real = real_name(files, alloc, name)?;
    Ok(fs::rename(files, beside, real.as_str())?)
}

/// Puts a sheet in the place of the file of this name, where all was written on it.
fn finish_file<H: Files>(
    files: &H,
    alloc: Global,
    name: &str,
    sheet: DiskSheet<H::File>,
) -> Result<(), FileError> {
    let DiskSheet { file, beside, lost } = sheet;
    if let Some(error) = lost {
        remove_beside(files, beside);
        return Err(FileError::from(error));
    }
    let Some(beside) = beside else {
        return Ok(());
    };
    let placed = place(files, alloc, &file, &beside, name);
    if placed.is_err() {
        remove_beside(files, Some(beside));
    }
    placed
}

impl<H: Files> Folder for Disk<'_, H> {
    type Sheet = DiskSheet<H::File>;

    ghost holds = { λ _ _. None };

    ghost is_known = { false };

    fn read(&self, alloc: Global, name: &str, limit: usize) -> Result<Vec<u8>, FileError> {
        let file = fs::open(self.files, name)?;
        let mut bytes = Vec::new(alloc);
        file.take((limit as u64).saturating_add(1))
            .read_to_end(&mut bytes)?;
        Ok(bytes)
    }

    fn replace(&mut self, alloc: Global, name: &str, bytes: &[u8]) -> Result<(), FileError> {
        replace_file(self.files, alloc, name, bytes)
    }

    fn begin(&mut self, alloc: Global, name: &str) -> Result<DiskSheet<H::File>, FileError> {
        begin_file(self.files, alloc, name)
    }

    fn finish(
        &mut self,
        alloc: Global,
        name: &str,
        sheet: DiskSheet<H::File>,
    ) -> Result<(), FileError> {
        finish_file(self.files, alloc, name, sheet)
    }

    fn discard(&mut self, sheet: DiskSheet<H::File>) -> Option<io::Error> {
        remove_beside(self.files, sheet.beside);
        sheet.lost
    }
}
