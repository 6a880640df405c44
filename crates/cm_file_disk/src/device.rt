//! A file as the device of a disk.
ghost use Rattle.std.specs.Prelude.{◌≡◌, ◌≤◌, ◌+◌, ◌^◌, length};

use cm_device_disk::Device;
use std::fs::File;
use std::io;
use std::os::unix::fs::FileExt;

/// A write goes to the file in pieces of this many bytes: on some file systems, every small sync
/// takes longer after a long write.
const PIECE: usize = 65536;

/// A regular file that nothing else writes to. Its calls are those of the system.
#[derive(Drop)]
pub struct FileDevice {
    pub(crate) file: File,
}

/// Writes the bytes in pieces.
fn write_pieces(file: &File, at: u64, bytes: &[u8]) -> io::Result<()>
    requires { at + length bytes.now ≤ 2 ^ 40 }
{
    let mut at = at;
    let mut rest = bytes;
    while !rest.is_empty() {
        let (piece, behind) = rest.split_at(rest.len().min(PIECE));
        file.write_all_at(piece, at)?;
        at += piece.len() as u64;
        rest = behind;
    }
    Ok(())
}

impl Device for FileDevice {
    type Fault = io::Error;

    // What a file holds is the system's.
    ghost does = { λ call old new ok. new ≡ old };

    fn read(&self, at: u64, out: &mut [u8]) -> io::Result<()> {
        self.file.read_exact_at(out, at)
    }

    fn write(&mut self, at: u64, bytes: &[u8]) -> io::Result<()> {
        write_pieces(&self.file, at, bytes)
    }

    fn cut(&mut self, len: u64) -> io::Result<()> {
        self.file.set_len(len)
    }

    fn sync(&mut self) -> io::Result<()> {
        self.file.sync_data()
    }
}
