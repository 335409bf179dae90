//! The bytes of sectors as a source of bytes.
ghost use Rattle.std.specs.Prelude.{◌≡◌, ◌≤◌, ◌<◌, ◌+◌, ◌^◌, length, OnOk, IfSome, Some, slice_range};
ghost use Rattle.generations.specs.Areas.{sectors_of};
ghost use Rattle.sector_bytes.specs.Bytes.{bytes_from, AreWhole};
ghost use Rattle.sector_bytes.specs.Counts.{HasRisen};
ghost use Rattle.sector_bytes.specs.Source.{SourceView, AreItsBytes, IsUntouched, untouched_none, untouched_on, untouched_risen};
ghost use Rattle.sector_disk.specs.Asked.{TellsFailure};
ghost use Rattle.sector_disk.specs.Disk.{seen};
ghost use Rattle.sector_disk.specs.declared.disk.TheConstants.{SECTOR_BYTES};

use byte_source::{Bytes, ReadFault};
use sector_disk::{DiskFault, SECTOR_BYTES, Sectors};
use std::marker::Model;

/// Bytes stored in consecutive sectors of a disk. The last sector of which a part was read is cached, so that successive reads within one
/// sector cost one disk read. Whole sectors are read straight to where they are wanted.
#[derive(Drop)]
pub struct SectorBytes<'a, D: Sectors> {
    disk: &'a mut D,
    first: u64,
    len: u64,
    last: Option<u64>,
    sector: [u8; SECTOR_BYTES],
}

impl<'a, D: Sectors> Model for SectorBytes<'a, D> {
    ghost Value = { SourceView D };

    ghost view = { λ s. record { disk = s.disk; first = s.first; len = s.len; last = s.last } };

    ghost invariant = { λ s. (s.first + sectors_of s.len ≤ D.sectors s.disk.now) × (s.first + sectors_of s.len < 2 ^ 64)
        × (D.honest s.disk.now → IfSome s.last (λ index. s.sector ≡ seen (D.history s.disk.now) (s.first + index))) };
}

impl<'a, D: Sectors> SectorBytes<'a, D> {
    /// `len` bytes from the start of sector `first` on.
    pub fn new(disk: &'a mut D, first: u64, len: u64) -> SectorBytes<'a, D>
        requires on_disk { first + sectors_of len ≤ D.sectors disk.old }
        ensures same_reference { result.disk.ghost_name ≡ disk.entry.ghost_name }
        ensures disk { result.disk.now ≡ disk.old }
        ensures first { result.first ≡ first }
        ensures len { result.len ≡ len }
    {
        let _count = disk.count();
        let sector = [0; SECTOR_BYTES];
        SectorBytes {
            disk,
            first,
            len,
            last: None,
            sector,
        }
    }

    /// Returns the disk. Only by this call does the disk's owner learn in which state the source left the disk.
    pub fn into_disk(self) -> &'a mut D
        ensures same_reference { result.ghost_name ≡ self.entry.disk.ghost_name }
        ensures disk { result.now ≡ self.entry.disk.now }
    {
        self.disk
    }

    /// Reads a part of one sector, as many bytes as fit in `into`. The disk is read only if the sector isn't cached; a whole one isn't cached then.
    fn read_part(&mut self, index: u64, offset: usize, into: &mut [u8]) -> Result<(), ReadFault>
        requires inside { index < sectors_of self.old.len }
        requires fits { offset + length into.old ≤ SECTOR_BYTES }
        ensures untouched { IsUntouched D.sectors D.honest D.history D.faults self.old self.new }
        ensures failed { TellsFailure result (D.faults self.old.disk.now) (D.faults self.new.disk.now) }
        ensures len { self.new.len ≡ self.old.len }
        ensures length { length into.new ≡ length into.old }
        ensures whole { D.honest self.new.disk.now
            → OnOk result (length (seen (D.history self.old.disk.now) (self.old.first + index)) ≡ SECTOR_BYTES) }
        ensures read { D.honest self.new.disk.now → OnOk result (into.new
            ≡ slice_range (seen (D.history self.old.disk.now) (self.old.first + index)) offset (offset + length into.old)) }
    {
        if self.last != Some(index) {
            if let Some(whole) = into.as_mut_array() {
                return self.read_whole(index, whole);
            }
            self.read_sector(index)?;
        }
        into.copy_from_slice(&self.sector[offset..offset + into.len()]);
        Ok(())
    }

    /// Reads a whole sector straight into `into`. The one that is cached stays so.
    fn read_whole(&mut self, index: u64, into: &mut [u8; SECTOR_BYTES]) -> Result<(), ReadFault>
        requires inside { index < sectors_of self.old.len }
        ensures untouched { IsUntouched D.sectors D.honest D.history D.faults self.old self.new }
        ensures failed { TellsFailure result (D.faults self.old.disk.now) (D.faults self.new.disk.now) }
        ensures len { self.new.len ≡ self.old.len }
        ensures length { length into.new ≡ SECTOR_BYTES }
        ensures read { D.honest self.new.disk.now → OnOk result (into.new ≡ seen (D.history self.old.disk.now) (self.old.first + index)) }
    {
        match self.disk.read(self.first + index, into) {
            Ok(()) => Ok(()),
            Err(DiskFault) => Err(ReadFault),
        }
    }

    /// Reads and caches a sector.
    fn read_sector(&mut self, index: u64) -> Result<(), ReadFault>
        requires inside { index < sectors_of self.old.len }
        ensures untouched { IsUntouched D.sectors D.honest D.history D.faults self.old self.new }
        ensures failed { TellsFailure result (D.faults self.old.disk.now) (D.faults self.new.disk.now) }
        ensures len { self.new.len ≡ self.old.len }
        ensures last { OnOk result (self.new.last ≡ Some index) }
    {
        self.last = None;
        match self.disk.read(self.first + index, &mut self.sector) {
            Ok(()) => {}
            Err(DiskFault) => return Err(ReadFault),
        }
        self.last = Some(index);
        Ok(())
    }

    /// Fills `into` with the bytes from an offset on, sector by sector. After a fault `into` is unspecified.
    pub(crate) fn read_parts(&mut self, at: u64, into: &mut [u8]) -> Result<(), ReadFault>
        requires inside { at + length into.old ≤ self.old.len }
        ensures untouched { IsUntouched D.sectors D.honest D.history D.faults self.old self.new }
        ensures failed { TellsFailure result (D.faults self.old.disk.now) (D.faults self.new.disk.now) }
        ensures len { self.new.len ≡ self.old.len }
        ensures length { length into.new ≡ length into.old }
        ensures whole { D.honest self.new.disk.now
            → OnOk result (AreWhole self.old.first at (length into.old) (seen (D.history self.old.disk.now))) }
        ensures read { D.honest self.new.disk.now → OnOk result (into.new ≡ slice_range
            (bytes_from (seen (D.history self.old.disk.now)) self.old.first (sectors_of (at + length into.old))) at (at + length into.old)) }
    {
        let _len = self.len;
        let mut done = 0;
        while done < into.len() {
            let place = at + done as u64;
            let offset = (place % SECTOR_BYTES as u64) as usize;
            let part = (SECTOR_BYTES - offset).min(into.len() - done);
            let index = place / SECTOR_BYTES as u64;
            self.read_part(index, offset, &mut into[done..done + part])?;
            done += part;
        }
        Ok(())
    }
}

impl<'a, D: Sectors> Bytes for SectorBytes<'a, D> {
    ghost count = { λ s. s.len };

    ghost holds = { λ s bytes. D.honest s.disk.now × AreItsBytes s.first s.len bytes (seen (D.history s.disk.now)) };

    ghost failed = { λ old new. HasRisen (D.faults old.disk.now) (D.faults new.disk.now) };

    ghost unchanged = { IsUntouched D.sectors D.honest D.history D.faults };

    fn len(&self) -> u64 {
        self.len
    }

    fn read_at(&mut self, at: u64, into: &mut [u8]) -> Result<(), ReadFault> {
        self.read_parts(at, into)
    }

    ghost sized = { λ s bytes held. held.1.length_is };

    ghost unchanged_itself = { λ s. untouched_none s };

    ghost unchanged_on = { λ a b c first then. untouched_on first then };

    ghost failed_on = { λ first then last same risen. untouched_risen first then last same risen };
}
