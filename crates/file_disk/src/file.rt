//! A disk in a file.
ghost use Rattle.std.specs.Prelude.{[], ◌≡◌, ◌<◌, ◌≤◌, ◌+◌, ◌*◌, ◌/◌, ◌^◌, ◌⊎◌, ◌∷◌, take, IfOk, IfErr, IsErrAnd, IsTrue, IsOk, OnOk, OnErr, false};
ghost use Rattle.std.proofs.Props.{props};
ghost use Rattle.sector_disk.specs.Asked.{MayWrite, OnlyReads};
ghost use Rattle.file_disk.specs.Calls.{replayed, IsHonest, UpToDate, NewestFits, GaveRun, WritesBack, AsksToRead, AsksToWrite, AsksToSync};
ghost use Rattle.file_disk.specs.Calls.Call.{gave_none};
ghost use Rattle.sector_disk.specs.Disk.{History, all_zeros, seen, Writes, Syncs, CountsFault};
ghost use Rattle.sector_disk.specs.Disk.History.{begun};
ghost use Rattle.sector_disk.specs.declared.disk.TheConstants.{SECTOR_BYTES};
ghost use Rattle.file_disk.specs.Files.{IsOpen, IsGrow, IsOfCreate};
ghost use Rattle.file_disk.specs.Notes.{recorded_calls};
ghost use Rattle.file_disk.specs.Runs.{Apart};
ghost use Rattle.file_disk.specs.declared.run.TheConstants.{RUN_SECTORS};

use crate::ahead::ReadAhead;
use crate::behind::WriteBehind;
use crate::recorded::RecordedFile;
use crate::run::{RUN_SECTORS, overlap};
use crate::start::Start;
use sector_disk::{DiskFault, Faults, SECTOR_BYTES, Sectors};
use std::fs::{OpenFile, OpenOptions};
use std::io::{self, Read, Seek, Write};
use std::marker::PhantomData;
use std::os::unix::fs::FileExt;
use std::rt::Files;
use thiserror::Error;

/// What a disk asks of its file. Offsets are in bytes from the file's start.
pub trait SectorFile {
    /// Fills the buffer with the bytes from the offset on.
    fn read_at(&mut self, into: &mut [u8; SECTOR_BYTES], offset: u64) -> io::Result<()>;

    /// Fills all of the sectors with the bytes from the offset on.
    fn read_run_at(&mut self, into: &mut [[u8; SECTOR_BYTES]], offset: u64) -> io::Result<()>;

    /// Writes all bytes of the sectors from the offset on.
    fn write_at(&mut self, from: &[[u8; SECTOR_BYTES]], offset: u64) -> io::Result<()>;

    /// Has the system put what was written on its medium, as `fdatasync` does.
    fn sync_data(&mut self) -> io::Result<()>;
}

/// A file of the system.
#[derive(Drop)]
pub struct SystemFile<F> {
    file: F,
}

impl<F> SystemFile<F> {
    /// An open file.
    pub fn new(file: F) -> SystemFile<F> {
        SystemFile { file }
    }
}

impl<F: FileExt + OpenFile> SectorFile for SystemFile<F> {
    fn read_at(&mut self, into: &mut [u8; SECTOR_BYTES], offset: u64) -> io::Result<()> {
        self.file.read_exact_at(into, offset)
    }

    fn read_run_at(&mut self, into: &mut [[u8; SECTOR_BYTES]], offset: u64) -> io::Result<()> {
        self.file.read_exact_at(into.as_flattened_mut(), offset)
    }

    fn write_at(&mut self, from: &[[u8; SECTOR_BYTES]], offset: u64) -> io::Result<()> {
        self.file.write_all_at(from.as_flattened(), offset)
    }

    fn sync_data(&mut self) -> io::Result<()> {
        OpenFile::sync_data(&self.file)
    }
}

/// Why there is no disk in a file, with the system's error.
#[derive(Debug, Drop, Error)]
pub enum FileFault {
    /// The file can't be opened, or its length can't be found out.
    #[error("the file can't be opened: {0}")]
    Open(io::Error),
    /// No file can be made there; what was there isn't touched.
    #[error("the file can't be made: {0}")]
    Create(io::Error),
    /// The file can't be made that long, or not be synced; it is removed, where the system lets it.
    #[error("the file can't be filled: {0}")]
    Grow(io::Error),
}

/// A disk in a file, which stores sector n from byte `n * SECTOR_BYTES` on. `S` says what the file had as it was opened, and the
/// history continues from there by the writes and syncs.
///
/// Up to `RUN_SECTORS` consecutive sectors are read or written by one call of the file. The second of two consecutive reads reads eight
/// sectors, and a read directly after all that were read ahead reads `RUN_SECTORS`. Writes are buffered until a write of another sector than the next one,
/// until the buffer is full, or until a sync. Sectors that the file fails to write stay buffered. Reads of buffered sectors are answered
/// from the buffer, and the file isn't asked for them. What is buffered when the value is dropped is lost.
///
/// The disk is `honest` as long as each read of the file that succeeded gave what the history says, and no write and no sync was
/// asked for after one that failed. So a client that stops writing at the first failure loses it by a false answer alone, and its
/// later reads still count. That a crash leaves what the history says is the system's word.
#[derive(Drop)]
pub struct FileDisk<F, S> {
    file: RecordedFile<F>,
    count: u64,
    faults: Faults,
    /// The sector after the one that was read last, where a read is consecutive.
    next: Option<u64>,
    ahead: ReadAhead,
    behind: WriteBehind,
    start: PhantomData<S>,
    ghost fits: { count * SECTOR_BYTES < 2 ^ 64 },
    ghost on_disk: { behind.first + behind.len ≤ count },
    ghost up_to_date: { UpToDate (recorded_calls file) ahead.first ahead.len ahead.sectors } by { Prim.hlevel props },
}

/// Makes a new file, which is empty, this many bytes long, with zeros, and syncs it. The error is that of the first call that fails.
pub fn fill<F: OpenFile>(file: &F, size: u64) -> io::Result<()> {
    file.set_len(size)?;
    file.sync_all()
}

/// A file that was just made: all of its `bytes` bytes are zeros, and they are synced.
#[derive(Drop)]
pub struct NewFile<F> {
    /// The open file, to read and to write it.
    pub file: F,
    /// How many bytes it has.
    pub bytes: u64,
}

/// Makes a file of `count` sectors of zeros at a path where there is nothing, to read and to write it, and syncs it. The error is
/// `Create` or `Grow`, and `Grow` if `count` sectors are more than 2^64 - 1 bytes. If the file can't be filled, it is removed, if the
/// system allows it. That the folder keeps the file's name after a crash is for the caller to see to.
pub fn new_file<F: OpenFile + Drop, R: Files<File = F>>(
    files: &R,
    path: &str,
    count: u64,
) -> Result<NewFile<F>, FileFault>
    ensures size { IfOk result (λ new. new.bytes ≡ count * SECTOR_BYTES) }
    ensures named { IfErr result IsOfCreate }
    ensures too_long { 2 ^ 64 ≤ count * SECTOR_BYTES → IsErrAnd result IsGrow }
{
    let Some(bytes) = count.checked_mul(SECTOR_BYTES as u64) else {
        return Err(FileFault::Grow(io::ErrorKind::InvalidInput.into()));
    };
    let file = OpenOptions::new()
        .read(true)
        .write(true)
        .create_new(true)
        .open(files, path)
        .map_err(FileFault::Create)?;
    match fill(&file, bytes) {
        Ok(()) => Ok(NewFile { file, bytes }),
        Err(error) => {
            let _ = files.remove_file(path);
            Err(FileFault::Grow(error))
        }
    }
}

impl<F: SectorFile + Drop, S: Start> FileDisk<F, S> {
    ghost use Rattle.file_disk.specs.Views.{file_calls};

    /// A disk over an open file of `bytes` bytes, to read and to write, of which no call is noted yet. It has the whole
    /// sectors among them. The start is used up, so that code over any `S` opens one disk for each that it is given.
    pub fn new(file: F, bytes: u64, _start: S) -> FileDisk<F, S>
        ensures count { ⟦<FileDisk<F, S> as Sectors>⟧.sectors result ≡ bytes / SECTOR_BYTES }
        ensures faults { ⟦<FileDisk<F, S> as Sectors>⟧.faults result ≡ 0 }
        ensures honest { ⟦<FileDisk<F, S> as Sectors>⟧.honest result }
        ensures found { ⟦<FileDisk<F, S> as Sectors>⟧.history result ≡ S.found }
        ensures calls { file_calls result ≡ [] }
    {
        FileDisk {
            file: RecordedFile::new(file),
            count: bytes / SECTOR_BYTES as u64,
            faults: Faults::none(),
            next: None,
            ahead: ReadAhead::none(),
            behind: WriteBehind::none(),
            start: PhantomData,
        }
    }
}

impl<F: FileExt + OpenFile + Read + Write + Seek + Drop, S: Start> FileDisk<SystemFile<F>, S> {
    ghost use Rattle.file_disk.specs.Views.{file_calls};

    /// Opens the file at a path, to read and to write it. The disk has the whole sectors that the file now holds,
    /// which may be none. No call of the file is noted yet. The error is `Open`.
    pub fn open<R: Files<File = F>>(
        files: &R,
        path: &str,
        start: S,
    ) -> Result<FileDisk<SystemFile<F>, S>, FileFault>
        ensures faults { IfOk result (λ disk. ⟦<FileDisk<SystemFile<F>, S> as Sectors>⟧.faults disk ≡ 0) }
        ensures honest { IfOk result ⟦<FileDisk<SystemFile<F>, S> as Sectors>⟧.honest }
        ensures found { IfOk result (λ disk. ⟦<FileDisk<SystemFile<F>, S> as Sectors>⟧.history disk ≡ S.found) }
        ensures calls { IfOk result (λ disk. file_calls disk ≡ []) }
        ensures named { IfErr result IsOpen }
    {
        let file = OpenOptions::new()
            .read(true)
            .write(true)
            .open(files, path)
            .map_err(FileFault::Open)?;
        let bytes = file.metadata().map_err(FileFault::Open)?.len();
        Ok(FileDisk::new(SystemFile::new(file), bytes, start))
    }

    /// Makes a file of `count` sectors of zeros at a path where there is nothing, as `new_file` does, and opens it: the start is one
    /// of zeros, as `Zeros` is. The errors are those of `new_file`.
    pub fn create<R: Files<File = F>>(
        files: &R,
        path: &str,
        count: u64,
        start: S,
    ) -> Result<FileDisk<SystemFile<F>, S>, FileFault>
        requires zeros { S.found ≡ begun all_zeros }
        ensures count { IfOk result (λ disk. ⟦<FileDisk<SystemFile<F>, S> as Sectors>⟧.sectors disk ≡ count) }
        ensures faults { IfOk result (λ disk. ⟦<FileDisk<SystemFile<F>, S> as Sectors>⟧.faults disk ≡ 0) }
        ensures honest { IfOk result ⟦<FileDisk<SystemFile<F>, S> as Sectors>⟧.honest }
        ensures found { IfOk result (λ disk. ⟦<FileDisk<SystemFile<F>, S> as Sectors>⟧.history disk ≡ begun all_zeros) }
        ensures calls { IfOk result (λ disk. file_calls disk ≡ []) }
        ensures named { IfErr result IsOfCreate }
        ensures too_long { 2 ^ 64 ≤ count * SECTOR_BYTES → IsErrAnd result IsGrow }
    {
        match new_file(files, path, count) {
            Ok(NewFile { file, bytes }) => Ok(FileDisk::new(SystemFile::new(file), bytes, start)),
            Err(fault) => Err(fault),
        }
    }
}

impl<F: SectorFile + Drop, S: Start> FileDisk<F, S> {
    ghost use Rattle.file_disk.specs.Views.{file_sectors, file_faults, file_calls, file_history};

    /// Reads a run of `count` sectors from sector `at` on, and gives sector `at`. It says whether the file's read succeeded.
    fn read_ahead(&mut self, at: u64, count: usize, into: &mut [u8; SECTOR_BYTES]) -> bool
        requires some { 0 < count }
        requires few { count ≤ RUN_SECTORS }
        requires fits { at + count ≤ file_sectors self.old }
        requires apart { Apart at count self.old.behind.first self.old.behind.len }
        ensures count { file_sectors self.new ≡ file_sectors self.old }
        ensures faults { file_faults self.new ≡ file_faults self.old }
        ensures behind { self.new.behind ≡ self.old.behind }
        ensures given { IsTrue result → (found : History) → IsHonest found (file_calls self.new) → into.new ≡ seen (replayed found (file_calls self.new)) at }
        ensures asks { IsTrue result → GaveRun at self.old.behind.first self.old.behind.len (file_calls self.old) (file_calls self.new) }
        ensures failed { result ≡ false → file_calls self.new ≡ gave_none (at * SECTOR_BYTES) ∷ file_calls self.old }
    {
        self.ahead.len = 0;
        let offset = at * SECTOR_BYTES as u64;
        match self.file.read_run(&mut self.ahead.sectors, count, offset) {
            Ok(()) => {
                self.ahead.first = at;
                self.ahead.len = count;
                *into = self.ahead.sectors[0];
                true
            }
            Err(_) => false,
        }
    }

    /// Gives a sector that was read ahead, or reads ahead from it on where the reads are sequential. It says whether it gave the
    /// sector. It doesn't read ahead over buffered sectors: after a write that failed nobody knows what the file has there.
    fn get_ahead(&mut self, at: u64, sequential: bool, into: &mut [u8; SECTOR_BYTES]) -> bool
        requires { at < file_sectors self.old }
        ensures count { file_sectors self.new ≡ file_sectors self.old }
        ensures faults { file_faults self.new ≡ file_faults self.old }
        ensures behind { self.new.behind ≡ self.old.behind }
        ensures given { IsTrue result → (found : History) → IsHonest found (file_calls self.new) → into.new ≡ seen (replayed found (file_calls self.new)) at }
        ensures asks { IsTrue result → (file_calls self.new ≡ file_calls self.old)
            ⊎ GaveRun at self.old.behind.first self.old.behind.len (file_calls self.old) (file_calls self.new) }
        ensures cached { self.old.ahead.first ≤ at → at < self.old.ahead.first + self.old.ahead.len
            → IsTrue result × (file_calls self.new ≡ file_calls self.old) }
        ensures failed { result ≡ false → (file_calls self.new ≡ file_calls self.old)
            ⊎ (file_calls self.new ≡ gave_none (at * SECTOR_BYTES) ∷ file_calls self.old) }
    {
        if self.ahead.get(at, into) {
            return true;
        }
        if !sequential || self.count - at < 2 {
            return false;
        }
        let count = self.ahead.next_run(at, self.count - at);
        if overlap(at, count, self.behind.first, self.behind.len) {
            return false;
        }
        self.read_ahead(at, count, into)
    }

    /// Writes the buffered sectors to the file, if there are any. If that fails, they stay buffered.
    fn write_back(&mut self) -> Result<(), DiskFault>
        ensures count { file_sectors self.new ≡ file_sectors self.old }
        ensures faults { file_faults self.new ≡ file_faults self.old }
        ensures empty { OnOk result (self.new.behind.len ≡ 0) }
        ensures history { (found : History) → file_history found self.new ≡ file_history found self.old }
        ensures asks { WritesBack result (self.old.behind.first * SECTOR_BYTES) self.old.behind.len
            (take self.old.behind.len self.old.behind.sectors) (file_calls self.old) (file_calls self.new) }
    {
        if self.behind.len == 0 {
            return Ok(());
        }
        self.ahead.invalidate(self.behind.first, self.behind.len);
        let offset = self.behind.first * SECTOR_BYTES as u64;
        match self
            .file
            .write_run(&self.behind.sectors, self.behind.len, offset)
        {
            Ok(()) => {
                self.behind.len = 0;
                Ok(())
            }
            Err(_) => Err(DiskFault),
        }
    }
}

impl<F: SectorFile + Drop, S: Start> Sectors for FileDisk<F, S> {
    ghost use Rattle.file_disk.specs.Views.{file_sectors, file_faults, file_calls, file_history, FileIsHonest, FileIsUsable};

    ghost honest = { FileIsHonest S.found };

    ghost history = { file_history S.found };

    ghost sectors = { file_sectors };

    ghost faults = { file_faults };

    fn count(&self) -> u64 {
        self.count
    }

    fn read(&mut self, at: u64, into: &mut [u8; SECTOR_BYTES]) -> Result<(), DiskFault>
        requires { at < file_sectors self.old }
        ensures disk { OnlyReads file_sectors (FileIsHonest S.found) (file_history S.found) self.old self.new }
        ensures faults { CountsFault result (file_faults self.old) (file_faults self.new) }
        ensures gives { FileIsHonest S.found self.new → OnOk result (into.new ≡ seen (file_history S.found self.old) at) }
        ensures stays { FileIsHonest S.found self.old → NewestFits (replayed S.found (file_calls self.old)) (file_calls self.new)
            → FileIsHonest S.found self.new }
        ensures cached { self.old.ahead.first ≤ at → at < self.old.ahead.first + self.old.ahead.len
            → IsOk result × (file_calls self.new ≡ file_calls self.old) }
        ensures asks { AsksToRead result at into.new self.old.behind.first self.old.behind.len (file_calls self.old) (file_calls self.new) }
    {
        let sequential = self.next == Some(at);
        self.next = Some(at + 1);
        if self.behind.get(at, into) {
            return Ok(());
        }
        if self.get_ahead(at, sequential, into) {
            return Ok(());
        }
        let outcome = self.file.read(into, at * SECTOR_BYTES as u64);
        self.faults.record(outcome.map_err(|_| DiskFault))
    }

    fn write(&mut self, at: u64, from: &[u8; SECTOR_BYTES]) -> Result<(), DiskFault>
        requires { at < file_sectors self.old }
        ensures disk { MayWrite file_sectors (FileIsHonest S.found) self.old self.new }
        ensures faults { CountsFault result (file_faults self.old) (file_faults self.new) }
        ensures writes { FileIsHonest S.found self.new → Writes result at from.now (file_history S.found self.old) (file_history S.found self.new) }
        ensures stays { FileIsHonest S.found self.old → FileIsUsable self.old → FileIsHonest S.found self.new }
        ensures buffers { self.old.behind.len < RUN_SECTORS → at ≡ self.old.behind.first + self.old.behind.len
            → IsOk result × (file_calls self.new ≡ file_calls self.old) }
        ensures refused { OnErr result ((found : History) → file_history found self.new ≡ file_history found self.old) }
        ensures asks { AsksToWrite result (self.old.behind.first * SECTOR_BYTES)
            (take self.old.behind.len self.old.behind.sectors) (file_calls self.old) (file_calls self.new) }
    {
        if self.behind.can_append(at) {
            self.behind.append(at, from);
            return Ok(());
        }
        match self.write_back() {
            Ok(()) => {
                self.behind.start(at, from);
                Ok(())
            }
            Err(fault) => self.faults.record(Err(fault)),
        }
    }

    fn sync(&mut self) -> Result<(), DiskFault>
        ensures disk { MayWrite file_sectors (FileIsHonest S.found) self.old self.new }
        ensures faults { CountsFault result (file_faults self.old) (file_faults self.new) }
        ensures syncs { FileIsHonest S.found self.new
            → Syncs result (file_history S.found self.old) (file_history S.found self.new) }
        ensures stays { FileIsHonest S.found self.old → FileIsUsable self.old → FileIsHonest S.found self.new }
        ensures asks { AsksToSync result (self.old.behind.first * SECTOR_BYTES) self.old.behind.len
            (take self.old.behind.len self.old.behind.sectors) (file_calls self.old) (file_calls self.new) }
    {
        match self.write_back() {
            Ok(()) => {}
            Err(fault) => return self.faults.record(Err(fault)),
        }
        let outcome = self.file.sync();
        self.faults.record(outcome.map_err(|_| DiskFault))
    }
}
