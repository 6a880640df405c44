//! The reader of whole class files.
ghost use Rattle.std.specs.Prelude.{◌≡◌, ◌⊎◌, IfOk, IfErr, Result};
ghost use Rattle.cm_class.specs.declared.class_file.ClassFile.{ClassFile};
ghost use Rattle.cm_class.specs.declared.fault.ShapeFault.{ShapeFault};
ghost use Rattle.cm_class.specs.Shape.{Spells, IsSpelling, IsShapeFault, IsAnswer};
ghost use Rattle.cm_class.specs.Reading.{GivesTo, GivesExactly, rest_of, class_at, answer_of};
ghost use Rattle.cm_class.specs.Reading.{IsUnlessRefused};

use crate::attributes::counted_attributes;
use crate::class::Class;
use crate::class_file::ClassFile;
use crate::fault::ShapeFault;
use crate::members::{interfaces, members};
use crate::numbers::read_u16;
use crate::pool::pool;
use crate::sink::{Nothing, Sink};
use crate::stop::Stop;
use std::alloc::{AllocError, Global};

#[tactic(auto, unfolding(crate::specs::Reading::class_at))]
fn class_file<'a, S: Sink>(sink: S, bytes: &'a [u8]) -> Result<(ClassFile<'a>, &'a [u8]), Stop>
    ensures { GivesTo S.keeps (λ x. (x.0, x.1.now)) result (class_at bytes.now) }
{
    let (slots, rest) = pool(sink, bytes)?;
    let (flags, rest) = read_u16(rest)?;
    let (this_class, rest) = read_u16(rest)?;
    let (super_class, rest) = read_u16(rest)?;
    let (interfaces, rest) = interfaces(sink, rest)?;
    let (fields, rest) = members(sink, rest)?;
    let (methods, rest) = members(sink, rest)?;
    let (attributes, rest) = counted_attributes(rest)?;
    let file = ClassFile {
        slots,
        flags,
        this_class,
        super_class,
        interfaces,
        fields,
        methods,
        attributes,
    };
    Ok((file, rest))
}

/// The bytes that follow a class file, of which nothing is kept.
pub(crate) fn skip_class_file(alloc: Global, bytes: &[u8]) -> Result<&[u8], Stop>
    ensures { GivesExactly (λ x. x.now) result (rest_of (class_at bytes.now)) }
{
    let (_, rest) = class_file(Nothing { alloc }, bytes)?;
    Ok(rest)
}

/// The fault of bytes, given what reading a class file from them leaves, or where it stops. If
/// nothing is left, the bytes spell one, and an allocation failed.
fn refusal(bytes: &[u8], left: Result<&[u8], Stop>) -> ShapeFault
    requires { GivesExactly (λ x. x.now) left (rest_of (class_at bytes.now)) }
    ensures { IsUnlessRefused (answer_of bytes.now (class_at bytes.now)) (Err result) }
{
    match left {
        Ok([]) => ShapeFault::NoMemory,
        Ok(rest) => ShapeFault::Trailing(bytes.len() - rest.len()),
        Err(Stop::Short) => ShapeFault::Truncated,
        Err(Stop::Bad(left)) => ShapeFault::Malformed(bytes.len() - left),
        Err(Stop::NoMemory) => ShapeFault::NoMemory,
    }
}

/// The class file that all of the bytes spell.
fn read_whole<'a>(alloc: Global, bytes: &'a [u8]) -> Result<Class<'a>, ShapeFault>
    ensures { IsUnlessRefused (answer_of bytes.now (class_at bytes.now)) result }
{
    match class_file(alloc, bytes) {
        Ok((file, [])) => Ok(Class::from_file(file)),
        Ok((_, rest)) => Err(refusal(bytes, Ok(rest))),
        // The bytes may have a fault after the place where an allocation failed.
        Err(Stop::NoMemory) => Err(refusal(bytes, skip_class_file(alloc, bytes))),
        Err(stop) => Err(refusal(bytes, Err(stop))),
    }
}

/// Reads a class file of version 52.0 (JVMS 4.1) from all of the bytes, in one pass.
///
/// Fails exactly if the bytes are no spelling of a class file, with the one fault that they have;
/// or with `NoMemory`, only if they are one and an allocation failed. Reserves memory only for
/// bytes that are there, whatever the counts and lengths in the file say. Only if an allocation
/// failed, a second pass, which doesn't allocate, looks for a fault.
pub fn read_shape<'a>(alloc: Global, bytes: &'a [u8]) -> Result<Class<'a>, ShapeFault>
    ensures ok { IfOk result (Spells bytes.now) }
    ensures fault { IfErr result (IsShapeFault bytes.now) }

    // The result is the correct answer, unless the bytes spell a class file and an allocation
    // failed.
    ensures only { (answer : Result ClassFile ShapeFault) → IsAnswer bytes.now answer
        → (result ≡ answer) ⊎ ((result ≡ Err ShapeFault.NoMemory) × IsSpelling bytes.now) }
{
    read_whole(alloc, bytes)
}

/// The class that the bytes spell, which are known to spell one.
pub fn class_of_spelling<'a>(alloc: Global, bytes: &'a [u8]) -> Result<Class<'a>, AllocError>
    ensures { (c : ClassFile) → Spells bytes.now c → IfOk result (λ class. class ≡ c) }
{
    match read_shape(alloc, bytes) {
        Ok(class) => Ok(class),
        Err(_) => Err(AllocError),
    }
}
