//! Files of the system, opened or created for use as a disk.
ghost use Rattle.std.specs.Prelude.{◌≡◌, ◌≢◌, ◌≤◌, ◌<◌, ◌^◌, ◌↔◌, Err, IfOk, length, min};
ghost use Rattle.std.specs.Fs.{metadata_len, file_type, IsFile};
ghost use Rattle.std.specs.IoError.{error_kind};
ghost use Rattle.std.specs.declared.io.ErrorKind.TheVariants.{AlreadyExists};
ghost use Rattle.cm_device_disk.specs.DeviceDisk.{IsEmptyDisk};
ghost use Rattle.cm_file_disk.specs.declared.fault.OpenError.TheVariants as open_error;
ghost use Rattle.cm_file_disk.specs.declared.fault.CreateError.TheVariants as create_error;

use crate::device::FileDevice;
use crate::fault::{CreateError, OpenError};
use crate::{FileDisk, OpenedFile};
use cm_device_disk::{DeviceDisk, OpenedDevice};
use std::alloc::Global;
use std::fs::{self, File, Files, Metadata, OpenOptions, TryLockError};
use std::io;
use std::os::fd::AsRawFd;
use std::path::Path;

/// The most bytes that a disk has.
const LIMIT: u64 = 1 << 40;

/// Standard error's descriptor: the standard streams have this one and those below it.
const STANDARD_ERROR: i32 = 2;

/// Opens a regular file that exists, and reads the first 4,096 bytes of it, or all if it has
/// fewer. Anything but a regular file isn't opened, since opening a pipe may block forever.
///
/// The file is locked (`flock`) until the disk is dropped, however the process ends: meanwhile
/// nothing else opens it as a disk, in this process or another.
///
/// # Errors
/// [`OpenError::NotRegular`] if it is no regular file; it isn't opened then.
/// [`OpenError::InUse`] if something else holds its lock; there is no wait, and nothing is read.
/// [`OpenError::NotLocked`] if its file system has no locks.
/// [`OpenError::TooLong`] if it has more bytes than a disk may have, [`OpenError::NoMemory`] if an
/// allocation failed, and [`OpenError::Device`] if the system doesn't find, open or read it. The
/// file is unchanged.
pub fn open(
    rt: &impl Files<File = File>,
    alloc: Global,
    path: &str,
) -> Result<OpenedFile, OpenError>
    ensures { IfOk result (λ f. length f.beginning.items ≡ min f.len 4096) }
{
    let file = open_regular(rt, path, OpenOptions::new().read(true).write(true))?;
    file.try_lock()?;
    read_beginning(alloc, file)
}

/// Like [`open`], but writes and cuts of its disk fail; no permission to write to the file is
/// needed. Others may open it in this way at the same time, but nothing may write to it. If its
/// file system has no locks, it is opened all the same.
pub fn open_read_only(
    rt: &impl Files<File = File>,
    alloc: Global,
    path: &str,
) -> Result<OpenedFile, OpenError>
    ensures { IfOk result (λ f. length f.beginning.items ≡ min f.len 4096) }
{
    let file = open_regular(rt, path, OpenOptions::new().read(true))?;
    if let Err(TryLockError::WouldBlock) = file.try_lock_shared() {
        return Err(OpenError::InUse);
    }
    read_beginning(alloc, file)
}

/// Creates a file of no bytes if nothing has that name, as a disk, and locks it as [`open`] does.
/// The file and its name in the folder are made durable. If that fails, what was created is
/// removed, if the system permits it.
///
/// # Errors
/// [`CreateError::Exists`] if something has that name, [`CreateError::InUse`] if another process
/// locked the file first, [`CreateError::NotLocked`] if its file system has no locks, and
/// [`CreateError::Device`] with the system's error otherwise.
pub fn create(
    rt: &impl Files<File = File>,
    alloc: Global,
    path: &str,
) -> Result<FileDisk, CreateError>
    ensures { IfOk result (λ d. IsEmptyDisk d.device d) }
{
    let file = create_file(rt, path)?;
    Ok(DeviceDisk::of_empty(alloc, FileDevice { file }))
}

/// The length of a file, if it is regular and not too long.
fn regular_length(found: &Metadata) -> Result<u64, OpenError>
    ensures ok { IfOk result (λ len. (len ≡ metadata_len found.now) × (len ≤ 2 ^ 40)) }
    ensures not_regular { result ≡ Err open_error.NotRegular ↔ (IsFile (file_type found.now) → ⊥) }
    ensures too_long { result ≡ Err open_error.TooLong
        ↔ IsFile (file_type found.now) × (2 ^ 40 < metadata_len found.now) }
{
    if !found.is_file() {
        return Err(OpenError::NotRegular);
    }
    if found.len() > LIMIT {
        return Err(OpenError::TooLong);
    }
    Ok(found.len())
}

/// The file with a descriptor above those of the standard streams: what is written to a closed
/// standard stream must not end up in the file.
fn above_standard_streams(file: File) -> io::Result<File> {
    if file.as_raw_fd() <= STANDARD_ERROR {
        file.try_clone()
    } else {
        Ok(file)
    }
}

/// Opens a regular file, which nothing is read of.
fn open_regular(
    rt: &impl Files<File = File>,
    path: &str,
    how: &OpenOptions,
) -> Result<File, OpenError> {
    regular_length(&fs::metadata(rt, path)?)?;
    Ok(above_standard_streams(how.open(rt, path)?)?)
}

/// Reads the first bytes of a file.
fn read_beginning(alloc: Global, file: File) -> Result<OpenedFile, OpenError>
    ensures { IfOk result (λ f. length f.beginning.items ≡ min f.len 4096) }
{
    let len = regular_length(&file.metadata()?)?;
    Ok(OpenedDevice::of_device(alloc, FileDevice { file }, len)?)
}

/// Creates a file if nothing has that name, and makes it and its name durable.
fn create_file(rt: &impl Files<File = File>, path: &str) -> Result<File, CreateError> {
    // The system says of each path that ends in a slash that it is a folder's, be it there or not.
    if path.ends_with('/') && fs::metadata(rt, path).is_ok() {
        return Err(CreateError::Exists);
    }
    let file = File::create_new(rt, path).map_err(why_not_created)?;
    match store_new(rt, file, path) {
        Ok(file) => Ok(file),
        Err(error) => {
            // It would be in the way of the next attempt.
            let _ = fs::remove_file(rt, path);
            Err(error)
        }
    }
}

fn why_not_created(error: io::Error) -> CreateError
    ensures exists { result ≡ create_error.Exists ↔ error_kind error ≡ AlreadyExists }
    ensures device { error_kind error ≢ AlreadyExists → result ≡ create_error.Device error }
{
    if error.kind() == io::ErrorKind::AlreadyExists {
        CreateError::Exists
    } else {
        CreateError::Device(error)
    }
}

/// Locks a new file, and makes it and its name durable.
fn store_new(rt: &impl Files<File = File>, file: File, path: &str) -> Result<File, CreateError> {
    let file = above_standard_streams(file)?;
    file.try_lock()?;
    file.sync_all()?;
    File::open(rt, folder_of(path))?.sync_all()?;
    Ok(file)
}

/// The folder that contains the path's last name.
fn folder_of(path: &str) -> &str {
    match Path::new(path).parent().and_then(|folder| folder.to_str()) {
        Some(folder) if !folder.is_empty() => folder,
        _ => ".",
    }
}
