//! What the rules require of the constants of a class.
ghost use Rattle.std.specs.Prelude.{◌≡◌, true};
ghost use Rattle.std.specs.Option.{option_map_or};
ghost use Rattle.std.specs.List.{list_all};
ghost use Rattle.cm_class.specs.Names.{constant_named, names_such};
ghost use Rattle.cm_attributes.specs.Contents.{bootstrap_count};
ghost use Rattle.cm_constraints.specs.Constants.{names_member, names_kinds};
ghost use Rattle.cm_constraints.specs.Constants.{handle_has_kind, class_has_name, in_slot};
ghost use Rattle.cm_constraints.specs.Constants.{field_reference_is_formed, names_method};
ghost use Rattle.cm_constraints.specs.Constants.{is_callable, method_reference_is_formed};
ghost use Rattle.cm_constraints.specs.Constants.{dynamic_call_is_formed, method_type_is_formed};
ghost use Rattle.cm_constraints.specs.Constants.{handle_has_name, dynamic_call_is_bound};
ghost use Rattle.cm_rules.specs.Kept.{constant_keeps};

use crate::bootstrap::bootstrap_count;
use crate::cost::Effort;
use crate::laid::{LaidClass, UTF8_TAG};
use cm_class::{Bytes, Constant, Kind};
use cm_descriptors::{begins_with, ends_in_void};

const INIT: &[u8] = b"<init>";

const CLINIT: &[u8] = b"<clinit>";

/// Whether a reference to a member names a class, and a name with a descriptor.
fn names_member(class: &LaidClass, of: u16, name_and_type: u16) -> bool
    ensures { result ≡ names_member class.now of name_and_type }
{
    class.names(of, Kind::Class) && class.names(name_and_type, Kind::NameAndType)
}

/// Whether each index in a constant names one of the kind that it must name; see `handle_has_kind`
/// for what a method handle names (JVMS 4.4).
fn names_kinds(class: &LaidClass, constant: &Constant<Bytes>) -> bool
    ensures { result ≡ names_kinds class.now constant.now }
{
    match constant {
        Constant::Class { name: utf8 }
        | Constant::String { utf8 }
        | Constant::MethodType { descriptor: utf8 } => class.names(*utf8, Kind::Utf8),
        Constant::Fieldref {
            class: of,
            name_and_type,
        }
        | Constant::Methodref {
            class: of,
            name_and_type,
        }
        | Constant::InterfaceMethodref {
            class: of,
            name_and_type,
        } => { names_member(class, *of, *name_and_type) }
        Constant::NameAndType { name, descriptor } => {
            class.names(*name, Kind::Utf8) && class.names(*descriptor, Kind::Utf8)
        }
        Constant::InvokeDynamic { name_and_type, .. } => {
            class.names(*name_and_type, Kind::NameAndType)
        }
        _ => true,
    }
}

/// Whether a method handle has one of the kinds, and names what that kind must name (JVMS 4.4.8).
fn handle_has_kind(class: &LaidClass, constant: &Constant<Bytes>) -> bool
    ensures { result ≡ handle_has_kind class.now constant.now }
{
    let Constant::MethodHandle { kind, reference } = constant else {
        return true;
    };
    match *kind {
        1 | 2 | 3 | 4 => class.names(*reference, Kind::Fieldref),
        5 | 8 => class.names(*reference, Kind::Methodref),
        6 | 7 => {
            class.names(*reference, Kind::Methodref)
                || class.names(*reference, Kind::InterfaceMethodref)
        }
        9 => class.names(*reference, Kind::InterfaceMethodref),
        _ => false,
    }
}

/// Whether a Class has a class name or the descriptor of an array (JVMS 4.4.1).
fn class_has_name(class: &LaidClass, constant: &Constant<Bytes>) -> bool
    ensures { result ≡ class_has_name class.now constant.now }
{
    let Constant::Class { name } = constant else {
        return true;
    };
    class.names_class_name(*name) || class.names_array_descriptor(*name)
}

/// Whether a Fieldref has a field's name and descriptor (JVMS 4.4.2).
fn field_reference_is_formed(class: &LaidClass, constant: &Constant<Bytes>) -> bool
    ensures { result ≡ field_reference_is_formed class.now constant.now }
{
    let Constant::Fieldref { name_and_type, .. } = constant else {
        return true;
    };
    let (name, descriptor) = class.name_and_type(*name_and_type);
    class.names_unqualified_name(name) && class.names_field_descriptor(descriptor)
}

/// Whether a pair has a method's name and descriptor.
fn names_method(class: &LaidClass, name_and_type: u16) -> bool
    ensures { result ≡ names_method class.now name_and_type }
{
    let (name, descriptor) = class.name_and_type(name_and_type);
    class.names_method_name(name) && class.names_method_descriptor(descriptor)
}

/// Whether a pair's name may be called by a reference: among the names that begin with `<` only
/// `<init>`, which returns nothing.
fn is_callable(class: &LaidClass, name_and_type: u16) -> bool
    ensures { result ≡ is_callable class.now name_and_type }
{
    let (name, descriptor) = class.name_and_type(name_and_type);
    let name = class.utf8(name);
    !begins_with(b'<', name) || (name == INIT && ends_in_void(class.utf8(descriptor)))
}

/// Whether a Methodref or InterfaceMethodref has a method's name and descriptor; among the names
/// that begin with `<` a Methodref may have only `<init>`, which returns nothing (JVMS 4.4.2).
fn method_reference_is_formed(class: &LaidClass, constant: &Constant<Bytes>) -> bool
    ensures { result ≡ method_reference_is_formed class.now constant.now }
{
    match constant {
        Constant::Methodref { name_and_type, .. } => {
            names_method(class, *name_and_type) && is_callable(class, *name_and_type)
        }
        Constant::InterfaceMethodref { name_and_type, .. } => names_method(class, *name_and_type),
        _ => true,
    }
}

/// Whether an InvokeDynamic has a method's name and descriptor (JVMS 4.4.10).
fn dynamic_call_is_formed(class: &LaidClass, constant: &Constant<Bytes>) -> bool
    ensures { result ≡ dynamic_call_is_formed class.now constant.now }
{
    match constant {
        Constant::InvokeDynamic { name_and_type, .. } => names_method(class, *name_and_type),
        _ => true,
    }
}

/// Whether a MethodType has the descriptor of a method (JVMS 4.4.9).
fn method_type_is_formed(class: &LaidClass, constant: &Constant<Bytes>) -> bool
    ensures { result ≡ method_type_is_formed class.now constant.now }
{
    match constant {
        Constant::MethodType { descriptor } => class.names_method_descriptor(*descriptor),
        _ => true,
    }
}

/// Whether a method handle that makes an object names `<init>`, and any other that calls a method
/// neither that nor `<clinit>` (JVMS 4.4.8).
fn handle_has_name(class: &LaidClass, constant: &Constant<Bytes>) -> bool
    ensures { result ≡ handle_has_name class.now constant.now }
{
    let Constant::MethodHandle { kind, reference } = constant else {
        return true;
    };
    let name = class.reference_name(*reference);
    match *kind {
        1 | 2 | 3 | 4 => true,
        8 => name == INIT,
        _ => !(name == INIT || name == CLINIT),
    }
}

/// Whether an InvokeDynamic names one of the bootstrap methods of the class (JVMS 4.4.10, 4.7.23).
fn dynamic_call_is_bound(class: &LaidClass, methods: u16, constant: &Constant<Bytes>) -> bool
    requires { methods ≡ bootstrap_count class.now }
    ensures { result ≡ dynamic_call_is_bound class.now constant.now }
{
    match constant {
        Constant::InvokeDynamic {
            bootstrap_method,
            ..
        } => *bootstrap_method < methods,
        _ => true,
    }
}

/// Whether a constant keeps all rules except that on the form of Utf8s.
#[inline(always)]
#[tactic(auto, unfolding(cm_rules::specs::Kept::constant_keeps, cm_rules::specs::Fault::pool_rule))]
fn constant_keeps(class: &LaidClass, methods: u16, constant: &Constant<Bytes>) -> bool
    requires { methods ≡ bootstrap_count class.now }
    ensures { result ≡ constant_keeps class.now constant.now }
{
    match constant {
        Constant::Class { .. } => names_kinds(class, constant) && class_has_name(class, constant),
        Constant::String { .. } | Constant::NameAndType { .. } => names_kinds(class, constant),
        Constant::Fieldref { .. } => {
            names_kinds(class, constant) && field_reference_is_formed(class, constant)
        }
        Constant::Methodref { .. } | Constant::InterfaceMethodref { .. } => {
            names_kinds(class, constant) && method_reference_is_formed(class, constant)
        }
        Constant::MethodHandle { .. } => {
            handle_has_kind(class, constant) && handle_has_name(class, constant)
        }
        Constant::MethodType { .. } => {
            names_kinds(class, constant) && method_type_is_formed(class, constant)
        }
        Constant::InvokeDynamic { .. } => {
            names_kinds(class, constant)
                && dynamic_call_is_formed(class, constant)
                && dynamic_call_is_bound(class, methods, constant)
        }
        Constant::Utf8(_)
        | Constant::Integer(_)
        | Constant::Float(_)
        | Constant::Long(_)
        | Constant::Double(_) => true,
    }
}

/// How many bytes of names and descriptors have to be read to judge a constant.
fn text_len(class: &LaidClass, constant: &Constant<Bytes>) -> usize {
    match constant {
        Constant::Class { name: utf8 } | Constant::MethodType { descriptor: utf8 } => {
            class.utf8(*utf8).len()
        }
        Constant::Fieldref { name_and_type, .. }
        | Constant::Methodref { name_and_type, .. }
        | Constant::InterfaceMethodref { name_and_type, .. }
        | Constant::InvokeDynamic { name_and_type, .. } => {
            let (name, descriptor) = class.name_and_type(*name_and_type);
            class
                .utf8(name)
                .len()
                .saturating_add(class.utf8(descriptor).len())
        }
        _ => 0,
    }
}

/// Whether the constant at an index keeps all rules except that on the form of Utf8s; true if there
/// is none.
fn is_kept_at(class: &LaidClass, methods: u16, effort: &mut Effort, index: u16) -> bool
    requires { methods ≡ bootstrap_count class.now }
    ensures { result ≡ true
        → option_map_or (constant_keeps class.now) (constant_named class.now index) true ≡ true }
{
    if class.tag(index) == UTF8_TAG {
        return true;
    }
    match class.constant(index) {
        Some(constant) => {
            effort.allows(text_len(class, &constant)) && constant_keeps(class, methods, &constant)
        }
        None => true,
    }
}

/// Whether each constant keeps all rules except that on the form of Utf8s.
pub(crate) fn constants_keep(class: &LaidClass) -> bool
    ensures { result ≡ true
        → list_all (in_slot (constant_keeps class.now)) class.now.slots ≡ true }
{
    let methods = bootstrap_count(class);
    let mut effort = Effort::for_class(class);
    let last = class.last_index();
    let mut index = 0;
    while index < last {
        index += 1;
        if !is_kept_at(class, methods, &mut effort, index) {
            return false;
        }
    }
    true
}
