//! What the rules require of one constant of the pool.
ghost use Rattle.std.specs.Prelude.{◌≡◌};
ghost use Rattle.cm_class.specs.Names.{names_such};
ghost use Rattle.cm_constraints.specs.Constants.{utf8_has_form, names_member, names_kinds};
ghost use Rattle.cm_constraints.specs.Constants.{handle_names, handle_has_kind, class_has_name};
ghost use Rattle.cm_constraints.specs.Constants.{field_reference_is_formed, names_method};
ghost use Rattle.cm_constraints.specs.Constants.{is_callable, method_reference_is_formed};
ghost use Rattle.cm_constraints.specs.Constants.{dynamic_call_is_formed, method_type_is_formed};
ghost use Rattle.cm_constraints.specs.Constants.{name_fits, handle_has_name};
ghost use Rattle.cm_constraints.specs.Constants.{dynamic_call_is_bound};

use crate::reference_kind::ReferenceKind;
use crate::subject::Subject;
use cm_class::{Bytes, Class, Constant, Kind};
use cm_descriptors::{begins_with, ends_in_void, has_utf8_form};

/// Whether a Utf8 has the right form (JVMS 4.4.7).
pub fn utf8_has_form(constant: &Constant<Bytes>) -> bool
    ensures { result ≡ utf8_has_form constant.now }
{
    match constant {
        Constant::Utf8(bytes) => has_utf8_form(bytes.as_slice()),
        _ => true,
    }
}

/// Whether a reference to a member names a class, and a name with a descriptor.
fn names_member(class: &Class, of: u16, name_and_type: u16) -> bool
    ensures { result ≡ names_member class.now of name_and_type }
{
    class.names(of, Kind::Class) && class.names(name_and_type, Kind::NameAndType)
}

/// Whether each index in a constant names one of the kind that it must name; see `handle_has_kind`
/// for what a method handle names (JVMS 4.4).
pub fn names_kinds(class: &Class, constant: &Constant<Bytes>) -> bool
    ensures { result ≡ names_kinds class.now constant.now }
{
    match constant {
        Constant::Class { name: utf8 }
        | Constant::String { utf8 }
        | Constant::MethodType { descriptor: utf8 } => class.names(*utf8, Kind::Utf8),
        Constant::Fieldref {
            class: of,
            name_and_type,
        }
        | Constant::Methodref {
            class: of,
            name_and_type,
        }
        | Constant::InterfaceMethodref {
            class: of,
            name_and_type,
        } => { names_member(class, *of, *name_and_type) }
        Constant::NameAndType { name, descriptor } => {
            class.names(*name, Kind::Utf8) && class.names(*descriptor, Kind::Utf8)
        }
        Constant::InvokeDynamic { name_and_type, .. } => {
            class.names(*name_and_type, Kind::NameAndType)
        }
        _ => true,
    }
}

/// Whether an index names what a method handle of this kind must name (JVMS 4.4.8).
fn handle_names(class: &Class, kind: ReferenceKind, reference: u16) -> bool
    ensures { result ≡ names_such (handle_names kind) class.now reference }
{
    match kind {
        ReferenceKind::GetField
        | ReferenceKind::GetStatic
        | ReferenceKind::PutField
        | ReferenceKind::PutStatic => class.names(reference, Kind::Fieldref),
        ReferenceKind::InvokeVirtual | ReferenceKind::NewInvokeSpecial => {
            class.names(reference, Kind::Methodref)
        }
        ReferenceKind::InvokeStatic | ReferenceKind::InvokeSpecial => {
            class.names(reference, Kind::Methodref)
                || class.names(reference, Kind::InterfaceMethodref)
        }
        ReferenceKind::InvokeInterface => class.names(reference, Kind::InterfaceMethodref),
    }
}

/// Whether a method handle has one of the kinds, and names what that kind must name (JVMS 4.4.8).
pub fn handle_has_kind(class: &Class, constant: &Constant<Bytes>) -> bool
    ensures { result ≡ handle_has_kind class.now constant.now }
{
    let Constant::MethodHandle { kind, reference } = constant else {
        return true;
    };
    match ReferenceKind::from_number(*kind) {
        Some(kind) => handle_names(class, kind, *reference),
        None => false,
    }
}

/// Whether a Class has a class name or the descriptor of an array (JVMS 4.4.1).
pub fn class_has_name(subject: &Subject, constant: &Constant<Bytes>) -> bool
    ensures { result ≡ class_has_name subject.now.class.now constant.now }
{
    let Constant::Class { name } = constant else {
        return true;
    };
    subject.names_class_name(*name) || subject.names_array_descriptor(*name)
}

/// Whether a Fieldref has a field's name and descriptor (JVMS 4.4.2).
pub fn field_reference_is_formed(subject: &Subject, constant: &Constant<Bytes>) -> bool
    ensures { result ≡ field_reference_is_formed subject.now.class.now constant.now }
{
    let Constant::Fieldref { name_and_type, .. } = constant else {
        return true;
    };
    let (name, descriptor) = subject.class.name_and_type(*name_and_type);
    subject.names_unqualified_name(name) && subject.names_field_descriptor(descriptor)
}

/// Whether a pair has a method's name and descriptor.
fn names_method(subject: &Subject, name_and_type: u16) -> bool
    ensures { result ≡ names_method subject.now.class.now name_and_type }
{
    let (name, descriptor) = subject.class.name_and_type(name_and_type);
    subject.names_method_name(name) && subject.names_method_descriptor(descriptor)
}

/// Whether a pair's name may be called by a reference: among the names that begin with `<` only
/// `<init>`, which returns nothing.
fn is_callable(class: &Class, name_and_type: u16) -> bool
    ensures { result ≡ is_callable class.now name_and_type }
{
    let (name, descriptor) = class.name_and_type(name_and_type);
    let name = class.utf8(name);
    !begins_with(b'<', name)
        || (name == b"<init>".as_slice() && ends_in_void(class.utf8(descriptor)))
}

/// Whether a Methodref or InterfaceMethodref has a method's name and descriptor; among the names
/// that begin with `<` a Methodref may have only `<init>`, which returns nothing (JVMS 4.4.2).
pub fn method_reference_is_formed(subject: &Subject, constant: &Constant<Bytes>) -> bool
    ensures { result ≡ method_reference_is_formed subject.now.class.now constant.now }
{
    match constant {
        Constant::Methodref { name_and_type, .. } => {
            names_method(subject, *name_and_type) && is_callable(subject.class, *name_and_type)
        }
        Constant::InterfaceMethodref { name_and_type, .. } => names_method(subject, *name_and_type),
        _ => true,
    }
}

/// Whether an InvokeDynamic has a method's name and descriptor (JVMS 4.4.10).
pub fn dynamic_call_is_formed(subject: &Subject, constant: &Constant<Bytes>) -> bool
    ensures { result ≡ dynamic_call_is_formed subject.now.class.now constant.now }
{
    match constant {
        Constant::InvokeDynamic { name_and_type, .. } => names_method(subject, *name_and_type),
        _ => true,
    }
}

/// Whether a MethodType has the descriptor of a method (JVMS 4.4.9).
pub fn method_type_is_formed(subject: &Subject, constant: &Constant<Bytes>) -> bool
    ensures { result ≡ method_type_is_formed subject.now.class.now constant.now }
{
    match constant {
        Constant::MethodType { descriptor } => subject.names_method_descriptor(*descriptor),
        _ => true,
    }
}

/// Whether a method handle that makes an object names `<init>`, and any other that calls a method
/// neither that nor `<clinit>` (JVMS 4.4.8).
pub fn handle_has_name(class: &Class, constant: &Constant<Bytes>) -> bool
    ensures { result ≡ handle_has_name class.now constant.now }
{
    let Constant::MethodHandle { kind, reference } = constant else {
        return true;
    };
    let name = class.reference_name(*reference);
    match ReferenceKind::from_number(*kind) {
        Some(ReferenceKind::NewInvokeSpecial) => name == b"<init>".as_slice(),
        Some(
            ReferenceKind::GetField
            | ReferenceKind::GetStatic
            | ReferenceKind::PutField
            | ReferenceKind::PutStatic,
        ) => true,
        _ => !(name == b"<init>".as_slice() || name == b"<clinit>".as_slice()),
    }
}

/// Whether an InvokeDynamic names one of the bootstrap methods of the class (JVMS 4.4.10, 4.7.23).
pub fn dynamic_call_is_bound(subject: &Subject, constant: &Constant<Bytes>) -> bool
    ensures { result ≡ dynamic_call_is_bound subject.now.class.now constant.now }
{
    match constant {
        Constant::InvokeDynamic {
            bootstrap_method,
            ..
        } => *bootstrap_method < subject.bootstrap_count(),
        _ => true,
    }
}
