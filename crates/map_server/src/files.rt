//! Disks in new files: for every file system.
ghost use Rattle.std.specs.Prelude.{◌≡◌, ◌<◌, ◌*◌, ◌/◌, Err, IfErr, IfOk, IsOk};
ghost use Rattle.sector_disk.specs.Asked.{MayWrite};
ghost use Rattle.sector_disk.specs.Disk.{all_zeros};
ghost use Rattle.sector_disk.specs.Disk.History.{begun};
ghost use Rattle.sector_disk.specs.declared.disk.TheConstants.{SECTOR_BYTES};
ghost use Rattle.generations.specs.Areas.{IsSize};
ghost use Rattle.generations.specs.declared.fault.StoreFault.TheVariants.{TooSmall, Damaged};
ghost use Rattle.generations.specs.declared.fault.What.TheVariants.{Size};
ghost use Rattle.generations.specs.declared.sizes.TheConstants.{MIN_SECTORS, MAX_SECTORS};
ghost use Rattle.tile_service.specs.Stored.{Keeps, first_state};
ghost use Rattle.map_server.specs.Faults.{IsOfFile};
ghost use Rattle.map_server.specs.declared.fault.FileFault.TheVariants.{Store};

use crate::fault::FileFault;
use file_disk::{FileDisk, NewFile, SectorFile, Start, new_file};
use generations::{MAX_SECTORS, MIN_SECTORS, StoreFault, What};
use sector_disk::Sectors;
use std::fs::OpenFile;
use std::io;
use std::path::Path;
use std::rt::Files;
use tile_service::Service;

/// Checks that a disk can be formatted with this many sectors.
fn check_size(sectors: u64) -> Result<(), StoreFault>
    ensures small { sectors < MIN_SECTORS → result ≡ Err TooSmall }
    ensures large { MAX_SECTORS < sectors → result ≡ Err (Damaged Size) }
    ensures fine { IsSize sectors → IsOk result }
{
    if sectors < MIN_SECTORS {
        Err(StoreFault::TooSmall)
    } else if sectors > MAX_SECTORS {
        Err(StoreFault::Damaged(What::Size))
    } else {
        Ok(())
    }
}

/// Syncs the folder of a path, so that the name outlives a crash.
pub fn sync_folder<R: Files>(files: &R, path: &str) -> io::Result<()> {
    let folder = match Path::new(path).parent() {
        Some(folder) => folder.as_str(),
        None => "",
    };
    let folder = if folder.is_empty() { "." } else { folder };
    let file = std::fs::File::open(files, folder)?;
    OpenFile::sync_all(&file)
}

/// Has a disk hold the empty map, in a file whose name outlives a crash.
fn settle<D: Sectors + Drop, R: Files>(files: &R, path: &str, disk: &mut D) -> Result<(), FileFault>
    ensures disk { MayWrite D.sectors D.honest disk.old disk.new }
    ensures only { IsSize (D.sectors disk.old) → IfErr result IsOfFile }
    ensures holds { D.honest disk.new → IfOk result (λ _. Keeps (D.sectors disk.old) (D.sectors disk.old) first_state (D.history disk.new)) }
{
    match Service::format(disk) {
        Ok(()) => {}
        Err(fault) => return Err(FileFault::Store(fault)),
    }
    match sync_folder(files, path) {
        Ok(()) => Ok(()),
        Err(error) => Err(FileFault::File(error)),
    }
}

/// What the system said as a file couldn't be made.
fn cause_of(fault: file_disk::FileFault) -> io::Error {
    match fault {
        file_disk::FileFault::Open(error)
        | file_disk::FileFault::Create(error)
        | file_disk::FileFault::Grow(error) => error,
    }
}

/// Makes a file of this many sectors of zeros at a path that doesn't exist. For a count outside the limits of a disk no file is touched.
pub fn new_disk_file<F: OpenFile + Drop, R: Files<File = F>>(
    files: &R,
    path: &str,
    sectors: u64,
) -> Result<NewFile<F>, FileFault>
    ensures small { sectors < MIN_SECTORS → result ≡ Err (Store TooSmall) }
    ensures large { MAX_SECTORS < sectors → result ≡ Err (Store (Damaged Size)) }
    ensures only { IsSize sectors → IfErr result IsOfFile }
    ensures size { IfOk result (λ new. new.bytes ≡ sectors * SECTOR_BYTES) }
{
    match check_size(sectors) {
        Ok(()) => {}
        Err(fault) => return Err(FileFault::Store(fault)),
    }
    match new_file(files, path, sectors) {
        Ok(new) => Ok(new),
        Err(fault) => Err(FileFault::File(cause_of(fault))),
    }
}

/// Has a file of `bytes` zeros, which was made at this path, hold the empty map, and returns its disk. The file's name then outlives a
/// crash. If the format fails, the file is removed, if the system allows it.
pub fn formatted_file<F: SectorFile + Drop, R: Files, S: Start>(
    files: &R,
    path: &str,
    file: F,
    bytes: u64,
    start: S,
) -> Result<FileDisk<F, S>, FileFault>
    requires zeros { S.found ≡ begun all_zeros }
    ensures only { IsSize (bytes / SECTOR_BYTES) → IfErr result IsOfFile }
    ensures count { IfOk result (λ disk. ⟦<FileDisk<F, S> as Sectors>⟧.sectors disk ≡ bytes / SECTOR_BYTES) }
    ensures holds { IfOk result (λ disk. ⟦<FileDisk<F, S> as Sectors>⟧.honest disk
        → Keeps (bytes / SECTOR_BYTES) (bytes / SECTOR_BYTES) first_state (⟦<FileDisk<F, S> as Sectors>⟧.history disk)) }
{
    let mut disk = FileDisk::new(file, bytes, start);
    match settle(files, path, &mut disk) {
        Ok(()) => Ok(disk),
        Err(fault) => {
            let _ = files.remove_file(path);
            Err(fault)
        }
    }
}
