//! The record of a class, for C.

ghost use Rattle.std.specs.Prelude.{◌≡◌, IfOk, IfErr, Some, Err, length, pos, false};
ghost use Rattle.std.specs.Arc.{arc_value};
ghost use Rattle.cm_core.specs.Cache.{record_in, unshared};
ghost use Rattle.cm_core.specs.Handles.{IsUsed};
ghost use Rattle.cm_core.specs.Class.{constant_told, constant_found, found_status, member_told};
ghost use Rattle.cm_core.specs.Class.{member_meant, code_told, told as told_of};

use crate::handle::Handle;
use crate::inner::Inner;
use crate::places::words_at;
use crate::status::{EMPTY, NO_MEMORY, NONE, OK};
use cm_class::Constant;
use cm_record::{Code, Member, Record, Utf8Place};
use std::alloc::Global;
use std::sync::Arc;

/// A constant of the pool.
#[repr(C)]
#[derive(Clone, Copy)]
pub struct ConstantForC {
    /// Its tag (JVMS table 4.4-A).
    pub tag: u8,
    /// The kind of a method handle.
    pub kind: u8,
    pub one: u16,
    pub two: u16,
    /// How many bytes a Utf8 has.
    pub len: u16,
    /// Where they begin, in bytes from the record's first byte.
    pub at: u32,
    /// The bits of a number.
    pub value: u64,
}

/// A field or a method.
#[repr(C)]
#[derive(Clone, Copy)]
pub struct MemberForC {
    pub is_method: bool,
    pub index: u16,
    pub flags: u16,
    pub attributes: u16,
}

/// Where the code of a method is, in bytes from the record's first byte.
#[repr(C)]
#[derive(Clone, Copy)]
pub struct CodeForC {
    pub max_stack: u16,
    pub max_locals: u16,
    pub handlers: u16,
    pub code_at: u32,
    pub code_len: u32,
    pub handlers_at: u32,
}

// A share of the record, if this is one.
fn share_record(inner: &Inner) -> Result<Arc<Record, Global>, i32>
    ensures shared { IfOk result (λ class. record_in inner.now ≡ Some (arc_value class)) }
    ensures status { IfErr result (λ status. status ≡ unshared (record_in inner.now)) }
{
    match inner {
        Inner::Record(class) => match class.clone() {
            Ok(class) => Ok(class),
            Err(_) => Err(NO_MEMORY),
        },
        _ => Err(EMPTY),
    }
}

// A share of the record that a handle leads to.
fn share_of(alloc: Global, handle: &mut Handle) -> Result<Arc<Record, Global>, i32>
    ensures full { handle.new.full ≡ handle.old.full }
    ensures refused { handle.old.full ≡ false → result ≡ Err (pos 25) }
{
    let Some(inner) = handle.take(alloc) else {
        return Err(EMPTY);
    };
    let shared = share_record(&inner);
    *handle = Handle::of(inner);
    shared
}

// Says where the words of a record are, and how many.
fn tell_words(record: &Record, words: &mut *const u64, count: &mut usize)
    ensures { count.new ≡ length record.now }
{
    let all = record.as_slice();
    *words = words_at(all);
    *count = all.len();
}

/// The words of a record, where they are.
#[unsafe(no_mangle)]
pub extern "C" fn cmcore_record_words(
    alloc: Global,
    record: &mut Handle,
    words: &mut *const u64,
    count: &mut usize,
) -> i32
    ensures { IsUsed record.old.full record.new.full result }
{
    match share_of(alloc, record) {
        Ok(class) => {
            tell_words(&class, words, count);
            OK
        }
        Err(status) => status,
    }
}

/// The access flags of a class.
#[unsafe(no_mangle)]
pub extern "C" fn cmcore_record_flags(alloc: Global, record: &mut Handle, flags: &mut u16) -> i32
    ensures { IsUsed record.old.full record.new.full result }
{
    match share_of(alloc, record) {
        Ok(class) => {
            *flags = class.flags();
            OK
        }
        Err(status) => status,
    }
}

fn empty_constant(tag: u8) -> ConstantForC
    ensures { result ≡ told_of tag 0 0 0 0 0 0 }
{
    ConstantForC {
        tag,
        kind: 0,
        one: 0,
        two: 0,
        len: 0,
        at: 0,
        value: 0,
    }
}

fn with_value(tag: u8, value: u64) -> ConstantForC
    ensures { result ≡ told_of tag 0 0 0 0 0 value }
{
    let mut told = empty_constant(tag);
    told.value = value;
    told
}

fn with_indexes(tag: u8, one: u16, two: u16) -> ConstantForC
    ensures { result ≡ told_of tag 0 one two 0 0 0 }
{
    let mut told = empty_constant(tag);
    told.one = one;
    told.two = two;
    told
}

fn with_place(tag: u8, place: Utf8Place) -> ConstantForC
    ensures { result ≡ told_of tag 0 0 0 place.len place.at 0 }
{
    let mut told = empty_constant(tag);
    told.at = place.at;
    told.len = place.len;
    told
}

/// A constant in C's numbers.
pub(crate) fn in_numbers(constant: Constant<Utf8Place>) -> ConstantForC
    ensures { result ≡ constant_told constant }
{
    match constant {
        Constant::Utf8(place) => with_place(1, place),
        Constant::Integer(bits) => with_value(3, u64::from(bits)),
        Constant::Float(bits) => with_value(4, u64::from(bits)),
        Constant::Long(bits) => with_value(5, bits),
        Constant::Double(bits) => with_value(6, bits),
        Constant::Class { name } => with_indexes(7, name, 0),
        Constant::String { utf8 } => with_indexes(8, utf8, 0),
        Constant::Fieldref {
            class,
            name_and_type,
        } => with_indexes(9, class, name_and_type),
        Constant::Methodref {
            class,
            name_and_type,
        } => with_indexes(10, class, name_and_type),
        Constant::InterfaceMethodref {
            class,
            name_and_type,
        } => { with_indexes(11, class, name_and_type) }
        Constant::NameAndType { name, descriptor } => with_indexes(12, name, descriptor),
        Constant::MethodHandle { kind, reference } => {
            let mut told = with_indexes(15, reference, 0);
            told.kind = kind;
            told
        }
        Constant::MethodType { descriptor } => with_indexes(16, descriptor, 0),
        Constant::InvokeDynamic {
            bootstrap_method,
            name_and_type,
        } => { with_indexes(18, bootstrap_method, name_and_type) }
    }
}

/// Says which constant was found, if one was.
pub(crate) fn tell_constant(found: Option<Constant<Utf8Place>>, told: &mut ConstantForC) -> i32
    ensures status { result ≡ found_status found }
    ensures told { told.new ≡ constant_found told.old found }
{
    match found {
        Some(constant) => {
            *told = in_numbers(constant);
            OK
        }
        None => NONE,
    }
}

/// The constant at an index of the pool.
#[unsafe(no_mangle)]
pub extern "C" fn cmcore_record_constant(
    alloc: Global,
    record: &mut Handle,
    index: u16,
    told: &mut ConstantForC,
) -> i32
    ensures { IsUsed record.old.full record.new.full result }
{
    match share_of(alloc, record) {
        Ok(class) => tell_constant(class.constant(index), told),
        Err(status) => status,
    }
}

// Says which member was found, if one was.
fn tell_member(found: Option<Member>, told: &mut MemberForC) -> i32
    ensures status { result ≡ found_status found }
    ensures told { told.new ≡ member_told told.old found }
{
    match found {
        Some(member) => {
            told.is_method = member.is_method;
            told.index = member.index;
            told.flags = member.flags;
            told.attributes = member.attributes;
            OK
        }
        None => NONE,
    }
}

/// The first field of a name and a descriptor.
#[unsafe(no_mangle)]
pub extern "C" fn cmcore_record_field(
    alloc: Global,
    record: &mut Handle,
    name: &[u8],
    descriptor: &[u8],
    told: &mut MemberForC,
) -> i32
    ensures { IsUsed record.old.full record.new.full result }
{
    match share_of(alloc, record) {
        Ok(class) => tell_member(class.field(name, descriptor), told),
        Err(status) => status,
    }
}

/// The first method of a name and a descriptor.
#[unsafe(no_mangle)]
pub extern "C" fn cmcore_record_method(
    alloc: Global,
    record: &mut Handle,
    name: &[u8],
    descriptor: &[u8],
    told: &mut MemberForC,
) -> i32
    ensures { IsUsed record.old.full record.new.full result }
{
    match share_of(alloc, record) {
        Ok(class) => tell_member(class.method(name, descriptor), told),
        Err(status) => status,
    }
}

// Says where the code is, if there is any.
fn tell_code(found: Option<Code>, told: &mut CodeForC) -> i32
    ensures status { result ≡ found_status found }
    ensures told { told.new ≡ code_told told.old found }
{
    match found {
        Some(code) => {
            told.max_stack = code.max_stack;
            told.max_locals = code.max_locals;
            told.handlers = code.handlers;
            told.code_at = code.code_at;
            told.code_len = code.code_len;
            told.handlers_at = code.handlers_at;
            OK
        }
        None => NONE,
    }
}

// The member that C means.
fn member_of(told: &MemberForC) -> Member
    ensures { result ≡ member_meant told.now }
{
    Member {
        is_method: told.is_method,
        index: told.index,
        flags: told.flags,
        attributes: told.attributes,
    }
}

/// Where the code of a method is.
#[unsafe(no_mangle)]
pub extern "C" fn cmcore_record_code(
    alloc: Global,
    record: &mut Handle,
    method: &MemberForC,
    told: &mut CodeForC,
) -> i32
    ensures { IsUsed record.old.full record.new.full result }
{
    match share_of(alloc, record) {
        Ok(class) => tell_code(class.code(&member_of(method)), told),
        Err(status) => status,
    }
}
