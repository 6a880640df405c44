//! Class files one after another, each preceded by its length.
ghost use Rattle.std.specs.Prelude.{◌≡◌, ◌≤◌, ◌<◌, List, ℕ, length, map, option_map, IfOk, IfErr};
ghost use Rattle.cm_stream.specs.Stream.{stream_of, AllFit, IsStreamFault, GivesClasses};
ghost use Rattle.cm_stream.specs.Stream.{EndsInLength};
ghost use Rattle.cm_stream.specs.Stream.{EndsInClass, first_at};
ghost use Rattle.cm_stream.specs.declared.stream.StreamFault.TheVariants.{NoMemory};

use byteorder::{BigEndian, ByteOrder};
use std::alloc::{AllocError, AllocFailed, Global};
use thiserror::Error;

/// How many bytes a length takes.
const LENGTH: usize = 4;

/// Why bytes are no stream of classes. Places are byte offsets from 0.
#[derive(Clone, Copy, Debug, PartialEq, Eq, Error)]
pub enum StreamFault {
    /// The stream ends inside the length that begins here.
    #[error("the input ends inside the length at byte {0}")]
    InLength(usize),
    /// The stream ends inside the class whose length begins here.
    #[error("the input ends inside the class whose length is at byte {0}")]
    InClass(usize),
    /// An allocation failed.
    #[error("out of memory")]
    NoMemory,
}

impl From<AllocError> for StreamFault {
    ghost from_gives = { λ _ e. e ≡ NoMemory };

    fn from(_error: AllocError) -> StreamFault {
        StreamFault::NoMemory
    }
}

impl<T: Drop> From<AllocFailed<T>> for StreamFault {
    ghost from_gives = { λ _ e. e ≡ NoMemory };

    fn from(_error: AllocFailed<T>) -> StreamFault {
        StreamFault::NoMemory
    }
}

/// The class at the front of a stream, and the bytes after it; `None` if the stream ends before the
/// class does.
#[tactic(auto, unfolding(crate::specs::Stream::first_at))]
fn first_class(bytes: &[u8]) -> Option<(&[u8], &[u8])>
    ensures { option_map (λ x. (x.0.now, x.1.now)) result ≡ first_at bytes.now }
{
    if bytes.len() < LENGTH {
        return None;
    }
    let (length, rest) = bytes.split_at(LENGTH);
    let length = BigEndian::read_u32(length) as usize;
    if rest.len() < length {
        return None;
    }
    Some(rest.split_at(length))
}

/// Why no class begins at a place, if this many bytes are left.
fn fault_at(at: usize, left: usize) -> StreamFault
    ensures length { left < 4 → result ≡ StreamFault.InLength at }
    ensures class { 4 ≤ left → result ≡ StreamFault.InClass at }
{
    if left < LENGTH {
        StreamFault::InLength(at)
    } else {
        StreamFault::InClass(at)
    }
}

/// The classes of a stream, one after another from its front.
fn split(alloc: Global, bytes: &[u8]) -> Result<Vec<&[u8]>, StreamFault>
    ensures ok { IfOk result
        (λ v. AllFit (map (λ class. class.now) v.items)
        × (bytes.now ≡ stream_of (map (λ class. class.now) v.items))) }
    ensures fault { IfErr result (IsStreamFault bytes.now) }
{
    let mut classes = Vec::new(alloc);
    let mut rest = bytes;
    while !rest.is_empty() {
        let Some((class, behind)) = first_class(rest) else {
            return Err(fault_at(bytes.len() - rest.len(), rest.len()));
        };
        classes.push(class)?;
        rest = behind;
    }
    Ok(classes)
}

/// The class files of a stream, each preceded by its length (four bytes, big-endian). They are not
/// copied, so a false length doesn't cause an allocation.
///
/// Fails exactly if the stream ends inside a length or inside a class, or with `NoMemory`.
pub fn classes_in(alloc: Global, bytes: &[u8]) -> Result<Vec<&[u8]>, StreamFault>
    ensures ok { IfOk result
        (λ v. AllFit (map (λ class. class.now) v.items)
        × (bytes.now ≡ stream_of (map (λ class. class.now) v.items))) }
    ensures fault { IfErr result (IsStreamFault bytes.now) }

    // For a stream of some classes the result is these, unless an allocation failed.
    ensures only { (classes : List (List ℕ)) → AllFit classes → bytes.now ≡ stream_of classes
        → GivesClasses (λ v. map (λ class. class.now) v.items) classes result }
{
    split(alloc, bytes)
}
