//! The tag of files, for C.

ghost use Rattle.std.specs.Prelude.{◌≡◌, ◌⊎◌, pos};
ghost use Rattle.cm_tag.specs.Texts.{class_text, IsWith, IsWithJar};

use crate::status::{NO_MEMORY, OK};
use cm_tag::Tag;
use std::alloc::Global;

/// The digest of the files that were added so far; 32 zeros are that of none.
#[repr(C)]
#[derive(Clone, Copy)]
pub struct TagForC {
    pub bytes: [u8; 32],
}

/// Adds a class file.
#[unsafe(no_mangle)]
pub extern "C" fn cmcore_tag_class(bytes: &[u8], tag: &mut TagForC) -> i32
    ensures status { result ≡ pos 0 }
    ensures added { IsWith tag.old.bytes (class_text bytes.now) tag.new.bytes }
{
    let mut with = Tag::from_digest(tag.bytes);
    with.add_class(bytes);
    tag.bytes = with.digest();
    OK
}

/// Adds a file that is taken for a jar.
#[unsafe(no_mangle)]
pub extern "C" fn cmcore_tag_jar(alloc: Global, bytes: &[u8], tag: &mut TagForC) -> i32
    ensures added { result ≡ pos 0 → IsWithJar tag.old.bytes bytes.now tag.new.bytes }
    ensures same { (result ≡ pos 0) ⊎ ((result ≡ pos 9) × (tag.new ≡ tag.old)) }
{
    let mut with = Tag::from_digest(tag.bytes);
    match with.add_jar(alloc, bytes) {
        Ok(()) => {
            tag.bytes = with.digest();
            OK
        }
        Err(_) => NO_MEMORY,
    }
}
