//! What a file of the system is asked where each of its calls takes a part of the bytes.
use super::fakes::{Call, Fake, FakeFile};
use super::kind_of;
use crate::wanted::same;
use file_disk::{SectorFile, SystemFile};
use std::cell::Cell;
use std::io::{self, ErrorKind};

/// A file that reads and writes at most 200 bytes a call, as the system may. A read fills them with the remainder of
/// its offset by 251.
#[derive(Drop)]
struct ShortFile {
    /// Where the last write ended, which the next has to go on from.
    end: Cell<u64>,
    data_syncs: Cell<u64>,
}

impl Fake for ShortFile {
    fn read_at(&self, buf: &mut [u8], offset: u64) -> io::Result<usize> {
        let count = buf.len().min(200);
        buf[..count].fill((offset % 251) as u8);
        Ok(count)
    }

    fn write_at(&self, buf: &[u8], offset: u64) -> io::Result<usize> {
        if offset != self.end.get() {
            return Err(ErrorKind::InvalidInput.into());
        }
        let count = buf.len().min(200);
        self.end.set(offset.saturating_add(count as u64));
        Ok(count)
    }

    fn call(&self, (name, _, _): Call) -> io::Result<()> {
        if name != "sync_data" {
            return Err(ErrorKind::Unsupported.into());
        }
        self.data_syncs.set(self.data_syncs.get().saturating_add(1));
        Ok(())
    }
}

impl ShortFile {
    /// How often its data was synced, and where the last write ended.
    fn state(&self) -> [u64; 2] {
        [self.data_syncs.get(), self.end.get()]
    }
}

/// The bytes 0, 199, 200, 399, 400 and 511 of those that are read at 1024.
fn read_bytes<F: SectorFile>(file: &mut F) -> io::Result<[u8; 6]> {
    let mut into = [0; 512];
    file.read_at(&mut into, 1024)?;
    Ok([
        into[0], into[199], into[200], into[399], into[400], into[511],
    ])
}

/// The bytes that are read, and the file's state once it was written and synced.
type States = ([u8; 6], [[u64; 2]; 2]);

fn states(fake: &ShortFile) -> io::Result<States> {
    let mut system = SystemFile::new(FakeFile { fake });
    let bytes = read_bytes(&mut system)?;
    system.write_at(&[[7; 512], [8; 512]], 512)?;
    let written = fake.state();
    system.sync_data()?;
    Ok((bytes, [written, fake.state()]))
}

/// Reads at 1024, 1224 and 1424, which are 20 + 4 * 251, 220 + 4 * 251 and 169 + 5 * 251. A sync is of the data alone, and there is none
/// but the one that is asked for.
const STATES: States = ([20, 20, 220, 220, 169, 169], [[0, 1536], [1, 1536]]);

#[test]
fn asks_the_system(rt: HostRuntime) {
    let file = ShortFile {
        end: Cell::new(512),
        data_syncs: Cell::new(0),
    };
    same(&rt, &kind_of(states(&file)), &Ok(STATES));
}
