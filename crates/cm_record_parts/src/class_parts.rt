//! The parts that a class has once, and its interfaces.
ghost use Rattle.std.specs.Prelude.{◌≡◌, ◌+◌, length, slice_get, option_map};
ghost use Rattle.cm_class.specs.declared.class_file.ClassFile.{ClassFile};
ghost use Rattle.cm_class.specs.Names.{class_name as class_name_at, class_name_of, super_name_of};
ghost use Rattle.cm_record_layout.specs.Layout.{IsRecordOf};
ghost use Rattle.cm_record_parts.specs.Places.{LieAt, MayLieAt};

use crate::places::{Place, name_place};
use crate::words::{offset_at, word_at};
use cm_record_layout::{HEAD_CLASS, HEAD_COUNTS, HEAD_INTERFACES_AT, first, fourth, second, third};

/// The access flags of the class.
pub fn flags(words: &[u64]) -> u16
    ensures { (c : ClassFile) → IsRecordOf c words.now → result ≡ c.flags }
{
    first(word_at(words, HEAD_CLASS))
}

/// The name of the class.
pub fn class_name(words: &[u64]) -> Place
    ensures { (c : ClassFile) → IsRecordOf c words.now
        → LieAt words.now result (class_name_of c) }
{
    name_place(words, second(word_at(words, HEAD_CLASS)))
}

/// The name of the super class; `None` if there is no super class.
pub fn super_name(words: &[u64]) -> Option<Place>
    ensures { (c : ClassFile) → IsRecordOf c words.now
        → MayLieAt words.now result (super_name_of c) }
{
    let index = third(word_at(words, HEAD_CLASS));
    if index == 0 {
        return None;
    }
    Some(name_place(words, index))
}

/// How many interfaces the class names.
pub fn interface_count(words: &[u64]) -> u16
    ensures { (c : ClassFile) → IsRecordOf c words.now → result ≡ length c.interfaces }
{
    fourth(word_at(words, HEAD_CLASS))
}

/// The name of the interface at an index, which counts from 0; `None` past the last one.
pub fn interface(words: &[u64], index: u16) -> Option<Place>
    ensures { (c : ClassFile) → IsRecordOf c words.now → MayLieAt words.now result
        (option_map (class_name_at c) (slice_get c.interfaces index)) }
{
    if index >= interface_count(words) {
        return None;
    }
    let at = offset_at(words, HEAD_INTERFACES_AT) as usize + index as usize;
    Some(name_place(words, first(word_at(words, at))))
}

/// The pool's count, one more than its last index.
pub fn pool_count(words: &[u64]) -> u16
    ensures { (c : ClassFile) → IsRecordOf c words.now → result ≡ length c.slots + 1 }
{
    first(word_at(words, HEAD_COUNTS))
}

/// How many fields the class has.
pub fn field_count(words: &[u64]) -> u16
    ensures { (c : ClassFile) → IsRecordOf c words.now → result ≡ length c.fields }
{
    second(word_at(words, HEAD_COUNTS))
}

/// How many methods the class has.
pub fn method_count(words: &[u64]) -> u16
    ensures { (c : ClassFile) → IsRecordOf c words.now → result ≡ length c.methods }
{
    third(word_at(words, HEAD_COUNTS))
}
