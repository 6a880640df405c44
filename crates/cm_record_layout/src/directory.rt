//! The directory's words of constants.
ghost use Rattle.std.specs.Prelude.{◌≡◌, ◌+◌, ◌*◌, ◌^◌};
ghost use Rattle.cm_class.specs.Reading.{tag_number};
ghost use Rattle.cm_record_layout.specs.Layout.{whole_word as whole_word_of};

use crate::packing::{FOURTH, THIRD};
use cm_class::{Bytes, Constant, Kind};

/// A word with a kind's tag and one number.
fn one(kind: Kind, number: u32) -> u64
    ensures { result ≡ tag_number kind + 2 ^ 32 * number }
{
    u64::from(kind.tag()) + THIRD * u64::from(number)
}

/// A word with a kind's tag and two numbers.
fn two(kind: Kind, first: u16, second: u16) -> u64
    ensures { result ≡ tag_number kind + 2 ^ 32 * first + 2 ^ 48 * second }
{
    u64::from(kind.tag()) + THIRD * u64::from(first) + FOURTH * u64::from(second)
}

/// The word of a constant that doesn't depend on a run; 0 for a Utf8.
pub fn whole_word(constant: &Constant<Bytes>) -> u64
    ensures { result ≡ whole_word_of constant.now }
{
    match constant {
        Constant::Utf8(_) => 0,
        Constant::Integer(bits) => one(Kind::Integer, *bits),
        Constant::Float(bits) => one(Kind::Float, *bits),
        Constant::Long(_) => u64::from(Kind::Long.tag()),
        Constant::Double(_) => u64::from(Kind::Double.tag()),
        Constant::Class { name } => one(Kind::Class, u32::from(*name)),
        Constant::String { utf8 } => one(Kind::String, u32::from(*utf8)),
        Constant::Fieldref {
            class,
            name_and_type,
        } => two(Kind::Fieldref, *class, *name_and_type),
        Constant::Methodref {
            class,
            name_and_type,
        } => two(Kind::Methodref, *class, *name_and_type),
        Constant::InterfaceMethodref {
            class,
            name_and_type,
        } => two(Kind::InterfaceMethodref, *class, *name_and_type),
        Constant::NameAndType { name, descriptor } => two(Kind::NameAndType, *name, *descriptor),
        Constant::MethodHandle { kind, reference } => {
            two(Kind::MethodHandle, u16::from(*kind), *reference)
        }
        Constant::MethodType { descriptor } => one(Kind::MethodType, u32::from(*descriptor)),
        Constant::InvokeDynamic {
            bootstrap_method,
            name_and_type,
        } => two(Kind::InvokeDynamic, *bootstrap_method, *name_and_type),
    }
}
