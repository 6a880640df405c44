//! The attributes of a method's code, in the content of its Code (JVMS 4.7.3).
ghost use Rattle.std.specs.Prelude.{◌≡◌, ◌<◌, ◌+◌, ◌^◌, ℕ, List, length, Some};
ghost use Rattle.cm_class.specs.declared.class_file.ClassFile.{ClassFile};
ghost use Rattle.cm_record.specs.Code.{u2_at, u4_at};
ghost use Rattle.cm_record_layout.specs.Layout.{IsRecordOf};
ghost use Rattle.cm_record_parts.specs.Nested.{nested_in, nested_at};
ghost use Rattle.cm_record_parts.specs.Parts.{MayBeAttribute};
ghost use Rattle.cm_record_parts.specs.Places.{LieAt};

use crate::attributes::Attribute;
use crate::places::{Place, utf8_place};
use crate::texts::byte_at;
use cm_record_layout::THIRD;

/// The attributes of a code, in the content of a Code.
#[repr(C)]
#[derive(Clone, Copy, Debug, PartialEq, Eq)]
pub struct NestedAttributes {
    /// The byte of the content at which the first one begins.
    pub from: u64,
    /// How many there are.
    pub count: u16,
}

// A number of two bytes in some content, the highest first.
fn u2(words: &[u64], content: Place, i: u64) -> u16
    requires { i < 2 ^ 40 }
    ensures { (bytes : List ℕ) → LieAt words.now content bytes → i + 1 < length bytes
        → result ≡ u2_at bytes i }
{
    let at = u64::from(content.at) + i;
    256 * u16::from(byte_at(words, at as usize)) + u16::from(byte_at(words, at as usize + 1))
}

// A number of four bytes in some content, the highest first.
fn u4(words: &[u64], content: Place, i: u64) -> u32
    requires { i < 2 ^ 39 }
    ensures { (bytes : List ℕ) → LieAt words.now content bytes → i + 3 < length bytes
        → result ≡ u4_at bytes i }
{
    65_536 * u32::from(u2(words, content, i)) + u32::from(u2(words, content, i + 2))
}

/// The attributes of a code, given the content of a Code; `None` if that ends before its code, its
/// handlers or the count of these attributes does.
pub fn nested_attributes(words: &[u64], content: Place) -> Option<NestedAttributes>
    ensures { (bytes : List ℕ) → LieAt words.now content bytes → result ≡ nested_in bytes }
{
    let len = u64::from(content.len);
    if len < 8 {
        return None;
    }
    let code = u64::from(u4(words, content, 4));
    if len < 10 + code {
        return None;
    }
    let end = 10 + code + 8 * u64::from(u2(words, content, 8 + code));
    if len < 2 + end {
        return None;
    }
    Some(NestedAttributes {
        from: 2 + end,
        count: u2(words, content, end),
    })
}

/// The attribute that begins at a byte of the content of a Code; `None` if the content ends before
/// the attribute does. The next one begins six bytes and its content's length after that.
pub fn nested_attribute(words: &[u64], content: Place, from: u64) -> Option<Attribute>
    ensures { (c : ClassFile) (bytes : List ℕ) → IsRecordOf c words.now
        → LieAt words.now content bytes
        → MayBeAttribute c words.now result (nested_at bytes from) }
{
    let len = u64::from(content.len);
    if from >= THIRD || len < 6 + from {
        return None;
    }
    let own = u4(words, content, 2 + from);
    if len < 6 + from + u64::from(own) {
        return None;
    }
    Some(Attribute {
        name: utf8_place(words, u2(words, content, from)),
        content: Place {
            // A record has fewer than 2^32 bytes.
            at: ((u64::from(content.at) + 6 + from) % THIRD) as u32,
            len: own,
        },
    })
}
