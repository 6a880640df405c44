//! The parts of a class, for C, from the words of its record, wherever these are. No handle is
//! used, so any number of threads may read the same words.

ghost use Rattle.std.specs.Prelude.{◌≡◌, ◌≤◌, ◌<◌, ◌+◌, ◌++◌, ℕ, ℤ, pos, List, length, take, drop};
ghost use Rattle.std.specs.Prelude.{slice_get, unwrap_or, option_map, Some};
ghost use Rattle.cm_class.specs.declared.class_file.ClassFile.{ClassFile};
ghost use Rattle.cm_class.specs.Names.{class_name, class_name_of, super_name_of};
ghost use Rattle.cm_class.specs.Spelling.{spell};
ghost use Rattle.cm_record.specs.Constants.{constant_kept};
ghost use Rattle.cm_record_layout.specs.Layout.{IsRecordOf};
ghost use Rattle.cm_record_parts.specs.Nested.{nested_in, nested_at};
ghost use Rattle.cm_record_parts.specs.Parts.{attribute_of, count_of, MayBeMember, MayBeAttribute};
ghost use Rattle.cm_record_parts.specs.Parts.{FindsNamed};
ghost use Rattle.cm_record_parts.specs.Places.{LieAt, MayLieAt};
ghost use Rattle.cm_record_parts.specs.Pool.{IsStart};
ghost use Rattle.cm_core.specs.Class.{constant_found, found_status};
ghost use Rattle.cm_core.specs.Parts.{owner_meant, attributes_meant, index_of_next};
ghost use Rattle.cm_core.specs.Parts.{constant_of_next, Tells, TellsNext, TellsFile};

use crate::record::{ConstantForC, in_numbers, tell_constant};
use crate::status::{NO_MEMORY, NO_ROOM, NONE, OK};
use cm_record::RecordFault;
use cm_record_parts::{
    Attribute, Member, NestedAttributes, Owner, Place, PoolConstant, attribute_at, attribute_count,
    attribute_named, class_file, constant, field, field_count, flags, interface, interface_count,
    method, method_count, nested_attribute, nested_attributes, next_constant, pool_count,
    super_name,
};
use std::alloc::Global;

// Says what was found, if anything was.
fn tell<T: Copy>(found: Option<T>, told: &mut T) -> i32
    ensures status { result ≡ found_status found }
    ensures told { told.new ≡ unwrap_or found told.old }
{
    match found {
        Some(found) => {
            *told = found;
            OK
        }
        None => NONE,
    }
}

// ---- the class itself

/// The access flags.
#[unsafe(no_mangle)]
pub extern "C" fn cmcore_words_flags(words: &[u64], told: &mut u16) -> i32
    ensures told { (c : ClassFile) → IsRecordOf c words.now → told.new ≡ c.flags }
    ensures status { result ≡ pos 0 }
{
    *told = flags(words);
    OK
}

/// The name of the class.
#[unsafe(no_mangle)]
pub extern "C" fn cmcore_words_class_name(words: &[u64], place: &mut Place) -> i32
    ensures told { (c : ClassFile) → IsRecordOf c words.now
        → LieAt words.now place.new (class_name_of c) }
    ensures status { result ≡ pos 0 }
{
    *place = cm_record_parts::class_name(words);
    OK
}

/// The name of the super class.
#[unsafe(no_mangle)]
pub extern "C" fn cmcore_words_super_name(words: &[u64], place: &mut Place) -> i32
    ensures { (c : ClassFile) → IsRecordOf c words.now → Tells
        (λ found. MayLieAt words.now found (super_name_of c)) place.old place.new result }
{
    tell(super_name(words), place)
}

/// How many interfaces there are.
#[unsafe(no_mangle)]
pub extern "C" fn cmcore_words_interface_count(words: &[u64], told: &mut u16) -> i32
    ensures told { (c : ClassFile) → IsRecordOf c words.now → told.new ≡ length c.interfaces }
    ensures status { result ≡ pos 0 }
{
    *told = interface_count(words);
    OK
}

/// The name of the interface at an index.
#[unsafe(no_mangle)]
pub extern "C" fn cmcore_words_interface(words: &[u64], index: u16, place: &mut Place) -> i32
    ensures { (c : ClassFile) → IsRecordOf c words.now → Tells
        (λ found. MayLieAt words.now found
        (option_map (class_name c) (slice_get c.interfaces index))) place.old place.new result }
{
    tell(interface(words, index), place)
}

// ---- the pool

/// The pool's count, one more than its last index.
#[unsafe(no_mangle)]
pub extern "C" fn cmcore_words_pool_count(words: &[u64], told: &mut u16) -> i32
    ensures told { (c : ClassFile) → IsRecordOf c words.now → told.new ≡ length c.slots + 1 }
    ensures status { result ≡ pos 0 }
{
    *told = pool_count(words);
    OK
}

/// The constant at an index of the pool.
#[unsafe(no_mangle)]
pub extern "C" fn cmcore_words_constant(words: &[u64], index: u16, told: &mut ConstantForC) -> i32
    ensures told { (c : ClassFile) → IsRecordOf c words.now
        → told.new ≡ constant_found told.old (constant_kept c index) }
    ensures status { (c : ClassFile) → IsRecordOf c words.now
        → result ≡ found_status (constant_kept c index) }
{
    tell_constant(constant(words, index), told)
}

// Says which constant is the next, if there is one.
fn tell_next(found: Option<PoolConstant>, index: &mut u16, told: &mut ConstantForC) -> i32
    ensures status { result ≡ found_status found }
    ensures index { index.new ≡ index_of_next index.old found }
    ensures constant { told.new ≡ constant_of_next told.old found }
{
    match found {
        Some(found) => {
            *index = found.index;
            *told = in_numbers(found.constant);
            OK
        }
        None => NONE,
    }
}

/// The first constant after the one at an index, or the first one of all after 0.
#[unsafe(no_mangle)]
pub extern "C" fn cmcore_words_next_constant(
    words: &[u64],
    after: u16,
    index: &mut u16,
    told: &mut ConstantForC,
) -> i32
    ensures { (c : ClassFile) → IsRecordOf c words.now → IsStart c after
        → TellsNext c after index.old index.new told.old told.new result }
{
    tell_next(next_constant(words, after), index, told)
}

// ---- fields and methods

/// How many fields there are.
#[unsafe(no_mangle)]
pub extern "C" fn cmcore_words_field_count(words: &[u64], told: &mut u16) -> i32
    ensures told { (c : ClassFile) → IsRecordOf c words.now → told.new ≡ length c.fields }
    ensures status { result ≡ pos 0 }
{
    *told = field_count(words);
    OK
}

/// How many methods there are.
#[unsafe(no_mangle)]
pub extern "C" fn cmcore_words_method_count(words: &[u64], told: &mut u16) -> i32
    ensures told { (c : ClassFile) → IsRecordOf c words.now → told.new ≡ length c.methods }
    ensures status { result ≡ pos 0 }
{
    *told = method_count(words);
    OK
}

/// The field at an index.
#[unsafe(no_mangle)]
pub extern "C" fn cmcore_words_field(words: &[u64], index: u16, told: &mut Member) -> i32
    ensures { (c : ClassFile) → IsRecordOf c words.now → Tells
        (λ found. MayBeMember c words.now found (slice_get c.fields index))
        told.old told.new result }
{
    tell(field(words, index), told)
}

/// The method at an index.
#[unsafe(no_mangle)]
pub extern "C" fn cmcore_words_method(words: &[u64], index: u16, told: &mut Member) -> i32
    ensures { (c : ClassFile) → IsRecordOf c words.now → Tells
        (λ found. MayBeMember c words.now found (slice_get c.methods index))
        told.old told.new result }
{
    tell(method(words, index), told)
}

// ---- attributes

// The part of the class that C means.
fn owner_of(kind: u32, index: u16) -> Option<Owner>
    ensures { result ≡ owner_meant kind index }
{
    match kind {
        0 => Some(Owner::Class),
        1 => Some(Owner::Field(index)),
        2 => Some(Owner::Method(index)),
        _ => None,
    }
}

// How many attributes such a part has; 0 if there is none.
fn count_attributes(words: &[u64], kind: u32, owner: u16) -> u16
    ensures { (c : ClassFile) → IsRecordOf c words.now
        → result ≡ count_of (attributes_meant c kind owner) }
{
    match owner_of(kind, owner) {
        Some(owner) => attribute_count(words, owner),
        None => 0,
    }
}

// The attribute at an index of those of such a part.
fn take_attribute(words: &[u64], kind: u32, owner: u16, index: u16) -> Option<Attribute>
    ensures { (c : ClassFile) → IsRecordOf c words.now → MayBeAttribute c words.now result
        (attribute_of (attributes_meant c kind owner) index) }
{
    match owner_of(kind, owner) {
        Some(owner) => attribute_at(words, owner, index),
        None => None,
    }
}

// The first attribute of a name among those of such a part.
fn find_attribute(words: &[u64], kind: u32, owner: u16, name: &[u8]) -> Option<Attribute>
    ensures { (c : ClassFile) → IsRecordOf c words.now
        → FindsNamed c words.now name.now (attributes_meant c kind owner) result }
{
    match owner_of(kind, owner) {
        Some(owner) => attribute_named(words, owner, name),
        None => None,
    }
}

/// How many attributes a part of the class has.
#[unsafe(no_mangle)]
pub extern "C" fn cmcore_words_attribute_count(
    words: &[u64],
    kind: u32,
    owner: u16,
    told: &mut u16,
) -> i32
    ensures told { (c : ClassFile) → IsRecordOf c words.now
        → told.new ≡ count_of (attributes_meant c kind owner) }
    ensures status { result ≡ pos 0 }
{
    *told = count_attributes(words, kind, owner);
    OK
}

/// The attribute at an index of those of a part of the class.
#[unsafe(no_mangle)]
pub extern "C" fn cmcore_words_attribute(
    words: &[u64],
    kind: u32,
    owner: u16,
    index: u16,
    told: &mut Attribute,
) -> i32
    ensures { (c : ClassFile) → IsRecordOf c words.now → Tells
        (λ found. MayBeAttribute c words.now found
        (attribute_of (attributes_meant c kind owner) index)) told.old told.new result }
{
    tell(take_attribute(words, kind, owner, index), told)
}

/// The first attribute of a name among those of a part of the class.
#[unsafe(no_mangle)]
pub extern "C" fn cmcore_words_attribute_named(
    words: &[u64],
    kind: u32,
    owner: u16,
    name: &[u8],
    told: &mut Attribute,
) -> i32
    ensures { (c : ClassFile) → IsRecordOf c words.now → Tells
        (FindsNamed c words.now name.now (attributes_meant c kind owner))
        told.old told.new result }
{
    tell(find_attribute(words, kind, owner, name), told)
}

/// The attributes of a code, given the content of its Code.
#[unsafe(no_mangle)]
pub extern "C" fn cmcore_words_nested(
    words: &[u64],
    content: &Place,
    told: &mut NestedAttributes,
) -> i32
    ensures { (bytes : List ℕ) → LieAt words.now content.now bytes → Tells
        (λ found. found ≡ nested_in bytes) told.old told.new result }
{
    tell(nested_attributes(words, *content), told)
}

/// The attribute that begins at a byte of the content of a Code.
#[unsafe(no_mangle)]
pub extern "C" fn cmcore_words_nested_attribute(
    words: &[u64],
    content: &Place,
    from: u64,
    told: &mut Attribute,
) -> i32
    ensures { (c : ClassFile) (bytes : List ℕ) → IsRecordOf c words.now
        → LieAt words.now content.now bytes → Tells
        (λ found. MayBeAttribute c words.now found (nested_at bytes from))
        told.old told.new result }
{
    tell(nested_attribute(words, *content, from), told)
}

// ---- the class file

// Writes bytes in front, if there is room for them, and says how many there are.
fn write_out(bytes: &[u8], out: &mut [u8], len: &mut usize) -> i32
    ensures { TellsFile bytes.now out.old out.new len.new result }
{
    *len = bytes.len();
    if bytes.len() > out.len() {
        return NO_ROOM;
    }
    out[..bytes.len()].copy_from_slice(bytes);
    OK
}

/// The class file of a record.
#[unsafe(no_mangle)]
pub extern "C" fn cmcore_words_class_file(
    alloc: Global,
    words: &[u64],
    out: &mut [u8],
    len: &mut usize,
) -> i32
    ensures { (c : ClassFile) → IsRecordOf c words.now
        → TellsFile (spell c) out.old out.new len.new result }
{
    let mut bytes = Vec::new(alloc);
    match class_file(words, &mut bytes) {
        Ok(()) => write_out(&bytes, out, len),
        Err(RecordFault::NoMemory) => NO_MEMORY,
        Err(RecordFault::NotARecord) => NONE,
    }
}
