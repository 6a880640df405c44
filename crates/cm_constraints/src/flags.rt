//! The access flags, and which combinations agree (JVMS 4.1, 4.5 and 4.6).
ghost use Rattle.std.specs.Prelude.{◌≡◌};
ghost use Rattle.cm_constraints.specs.Flags.{has, one_if, visibilities, class_flags_agree};
ghost use Rattle.cm_constraints.specs.Flags.{interface_field_agrees, field_flags_agree};
ghost use Rattle.cm_constraints.specs.Flags.{interface_method_agrees, method_flags_agree};
ghost use Rattle.cm_constraints.specs.Flags.{constructor_flags_agree};

const ACC_PUBLIC: u16 = 0x0001;

const ACC_PRIVATE: u16 = 0x0002;

const ACC_PROTECTED: u16 = 0x0004;

/// Static: of a field, a method or a nested class.
pub const ACC_STATIC: u16 = 0x0008;

const ACC_FINAL: u16 = 0x0010;
/// For a class.
const ACC_SUPER: u16 = 0x0020;
/// For a method.
const ACC_SYNCHRONIZED: u16 = 0x0020;
/// For a field.
const ACC_VOLATILE: u16 = 0x0040;
/// For a method.
const ACC_BRIDGE: u16 = 0x0040;
/// For a field.
const ACC_TRANSIENT: u16 = 0x0080;

/// Native: of a method, which then has no code.
pub const ACC_NATIVE: u16 = 0x0100;

/// An interface, not a class.
pub const ACC_INTERFACE: u16 = 0x0200;

/// Abstract: of a class, or of a method, which then has no code.
pub const ACC_ABSTRACT: u16 = 0x0400;

const ACC_STRICT: u16 = 0x0800;

const ACC_ANNOTATION: u16 = 0x2000;

const ACC_ENUM: u16 = 0x4000;

const NOT_OF_INTERFACE: u16 = ACC_FINAL | ACC_SUPER | ACC_ENUM;

const NOT_OF_INTERFACE_FIELD: u16 = ACC_PRIVATE
    | ACC_PROTECTED
    | ACC_VOLATILE
    | ACC_TRANSIENT
    | ACC_ENUM;

const NOT_WITH_ABSTRACT: u16 = ACC_PRIVATE
    | ACC_STATIC
    | ACC_FINAL
    | ACC_SYNCHRONIZED
    | ACC_NATIVE
    | ACC_STRICT;

const NOT_OF_INTERFACE_METHOD: u16 = ACC_PROTECTED | ACC_FINAL | ACC_SYNCHRONIZED | ACC_NATIVE;

const NOT_OF_CONSTRUCTOR: u16 = ACC_STATIC
    | ACC_FINAL
    | ACC_SYNCHRONIZED
    | ACC_BRIDGE
    | ACC_NATIVE
    | ACC_ABSTRACT;

/// Whether a flag, or one of several flags, is set.
pub fn has(flags: u16, some: u16) -> bool
    ensures { result ≡ has flags some }
{
    flags & some != 0
}

fn one_if(holds: bool) -> u8
    ensures { result ≡ one_if holds }
{
    if holds { 1 } else { 0 }
}

/// How many of public, private and protected are set.
fn visibilities(flags: u16) -> u8
    ensures { result ≡ visibilities flags }
{
    one_if(has(flags, ACC_PUBLIC))
        + one_if(has(flags, ACC_PRIVATE))
        + one_if(has(flags, ACC_PROTECTED))
}

/// Whether the flags of a class agree (JVMS 4.1).
#[tactic(auto, unfolding(crate::specs::Flags::class_flags_agree))]
pub fn class_flags_agree(flags: u16) -> bool
    ensures { result ≡ class_flags_agree flags }
{
    if has(flags, ACC_INTERFACE) {
        has(flags, ACC_ABSTRACT) && !has(flags, NOT_OF_INTERFACE)
    } else {
        !has(flags, ACC_ANNOTATION) && !(has(flags, ACC_FINAL) && has(flags, ACC_ABSTRACT))
    }
}

#[tactic(auto, unfolding(crate::specs::Flags::interface_field_agrees))]
fn interface_field_agrees(flags: u16) -> bool
    ensures { result ≡ interface_field_agrees flags }
{
    has(flags, ACC_PUBLIC)
        && has(flags, ACC_STATIC)
        && has(flags, ACC_FINAL)
        && !has(flags, NOT_OF_INTERFACE_FIELD)
}

/// Whether a field's flags agree, in a class of these flags (JVMS 4.5).
#[tactic(auto, unfolding(crate::specs::Flags::field_flags_agree))]
pub fn field_flags_agree(of_class: u16, flags: u16) -> bool
    ensures { result ≡ field_flags_agree of_class flags }
{
    visibilities(flags) <= 1
        && !(has(flags, ACC_FINAL) && has(flags, ACC_VOLATILE))
        && (!has(of_class, ACC_INTERFACE) || interface_field_agrees(flags))
}

#[tactic(auto, unfolding(crate::specs::Flags::interface_method_agrees))]
fn interface_method_agrees(flags: u16) -> bool
    ensures { result ≡ interface_method_agrees flags }
{
    one_if(has(flags, ACC_PUBLIC)) + one_if(has(flags, ACC_PRIVATE)) == 1
        && !has(flags, NOT_OF_INTERFACE_METHOD)
}

/// Whether a method's flags agree, in a class of these flags (JVMS 4.6).
#[tactic(auto, unfolding(crate::specs::Flags::method_flags_agree))]
pub fn method_flags_agree(of_class: u16, flags: u16) -> bool
    ensures { result ≡ method_flags_agree of_class flags }
{
    visibilities(flags) <= 1
        && (!has(flags, ACC_ABSTRACT) || !has(flags, NOT_WITH_ABSTRACT))
        && (!has(of_class, ACC_INTERFACE) || interface_method_agrees(flags))
}

/// Whether a constructor may have these flags of a method (JVMS 4.6).
pub fn constructor_flags_agree(flags: u16) -> bool
    ensures { result ≡ constructor_flags_agree flags }
{
    !has(flags, NOT_OF_CONSTRUCTOR)
}
