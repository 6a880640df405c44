//! Words of a file, read by several threads.
ghost use Rattle.std.specs.Prelude.{◌<◌};

use crate::device::FileDevice;
use cm_device_disk::{RangeWords, WordsAhead, read_part, unread};
use cm_disk::WordRange;
use std::alloc::{AllocError, Global};
use std::thread::{self, Threads};

/// Reads the words of these ranges of a file, in as many parts as there are threads, each part by a
/// thread of its own if it can be started.
pub fn read_ahead<R: Threads + Sync>(
    rt: &R,
    alloc: Global,
    file: &FileDevice,
    ranges: &[WordRange],
    threads: usize,
) -> Result<WordsAhead, AllocError>
    requires { 0 < threads }
{
    let mut ahead = unread(alloc, ranges)?;
    let size = ahead.len().div_ceil(threads).max(1);
    let read = |_, part: &mut [RangeWords]| { read_part(alloc, file, part) };
    thread::for_each_chunk_mut(rt, &mut ahead, size, &read);
    Ok(WordsAhead::of(ahead))
}
