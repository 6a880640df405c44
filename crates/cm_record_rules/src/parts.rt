//! The parts of attributes' contents: numbers of two bytes.
ghost use Rattle.std.specs.Prelude.{◌≡◌, [], ◌∷◌, ◌||◌, ◌==◌, option_copied};
ghost use Rattle.cm_class.specs.Names.{names_such};
ghost use Rattle.cm_class.specs.declared.kind.Kind.TheVariants as kinds;
ghost use Rattle.cm_class.specs.Names.{names};
ghost use Rattle.cm_attributes.specs.Contents.{is_loadable, past_counted, enclosing_method};
ghost use Rattle.cm_attributes.specs.Contents.{exception, inner_class, past_parts};
ghost use Rattle.cm_record_rules.specs.Parts.{past_test, past_tests, any};

use crate::laid::LaidClass;
use cm_attributes::read_u2;
use cm_class::{Constant, Kind};

/// The bytes after the index of a constant of this kind.
fn skip_index<'b>(class: &LaidClass, kind: Kind, bytes: &'b [u8]) -> Option<&'b [u8]>
    ensures { option_copied result ≡ past_test (names kind class.now) bytes.now }
{
    let (number, rest) = read_u2(bytes)?;
    if class.names(number, kind) {
        Some(rest)
    } else {
        None
    }
}

/// The bytes after 0, or the index of a constant of this kind.
fn skip_index_or_zero<'b>(class: &LaidClass, kind: Kind, bytes: &'b [u8]) -> Option<&'b [u8]>
    ensures { option_copied result ≡ past_test (λ n. n == 0 || names kind class.now n) bytes.now }
{
    let (number, rest) = read_u2(bytes)?;
    if number == 0 || class.names(number, kind) {
        Some(rest)
    } else {
        None
    }
}

/// The bytes after a number.
fn skip_any(bytes: &[u8]) -> Option<&[u8]>
    ensures { option_copied result ≡ past_test any bytes.now }
{
    let (_, rest) = read_u2(bytes)?;
    Some(rest)
}

fn is_loadable(class: &LaidClass, index: u16) -> bool
    ensures { result ≡ names_such is_loadable class.now index }
{
    matches!(
        class.constant(index),
        Some(
            Constant::String { .. }
                | Constant::Class { .. }
                | Constant::Integer(_)
                | Constant::Long(_)
                | Constant::Float(_)
                | Constant::Double(_)
                | Constant::MethodHandle { .. }
                | Constant::MethodType { .. }
        )
    )
}

/// The bytes after the index of a constant that a bootstrap method takes.
#[tactic(auto, unfolding(crate::specs::Parts::past_parts))]
fn skip_loadable<'b>(class: &LaidClass, bytes: &'b [u8]) -> Option<&'b [u8]>
    ensures { option_copied result ≡ past_tests (names_such is_loadable class.now ∷ []) bytes.now }
{
    let (number, rest) = read_u2(bytes)?;
    if is_loadable(class, number) {
        Some(rest)
    } else {
        None
    }
}

/// The bytes after the index of a constant of this kind, as a row.
#[tactic(auto, unfolding(crate::specs::Parts::past_parts))]
pub(crate) fn skip_one<'b>(class: &LaidClass, kind: Kind, bytes: &'b [u8]) -> Option<&'b [u8]>
    ensures { option_copied result ≡ past_tests (names kind class.now ∷ []) bytes.now }
{
    let rest = skip_index(class, kind, bytes)?;
    Some(rest)
}

/// The bytes after a number, as a row.
#[tactic(auto, unfolding(crate::specs::Parts::past_parts))]
pub(crate) fn skip_number(bytes: &[u8]) -> Option<&[u8]>
    ensures { option_copied result ≡ past_tests (any ∷ []) bytes.now }
{
    let rest = skip_any(bytes)?;
    Some(rest)
}

/// The bytes after two numbers.
#[tactic(auto, unfolding(crate::specs::Parts::past_parts))]
pub(crate) fn skip_two_numbers(bytes: &[u8]) -> Option<&[u8]>
    ensures { option_copied result ≡ past_tests (any ∷ any ∷ []) bytes.now }
{
    let rest = skip_any(bytes)?;
    let rest = skip_any(rest)?;
    Some(rest)
}

/// The bytes after the enclosing class, and the method.
#[tactic(auto, unfolding(crate::specs::Parts::past_parts))]
pub(crate) fn skip_enclosing_method<'b>(class: &LaidClass, bytes: &'b [u8]) -> Option<&'b [u8]>
    ensures { option_copied result ≡ past_parts class.now enclosing_method bytes.now }
{
    let rest = skip_index(class, Kind::Class, bytes)?;
    let rest = skip_index_or_zero(class, Kind::NameAndType, rest)?;
    Some(rest)
}

/// The bytes after an inner class, its outer class, its name and its flags.
#[tactic(auto, unfolding(crate::specs::Parts::past_parts))]
fn skip_inner_class<'b>(class: &LaidClass, bytes: &'b [u8]) -> Option<&'b [u8]>
    ensures { option_copied result ≡ past_parts class.now inner_class bytes.now }
{
    let rest = skip_index(class, Kind::Class, bytes)?;
    let rest = skip_index_or_zero(class, Kind::Class, rest)?;
    let rest = skip_index_or_zero(class, Kind::Utf8, rest)?;
    let rest = skip_any(rest)?;
    Some(rest)
}

/// The bytes after a count and that many exceptions.
pub(crate) fn skip_exceptions<'b>(class: &LaidClass, bytes: &'b [u8]) -> Option<&'b [u8]>
    ensures { option_copied result
        ≡ past_counted (past_tests (names kinds.Class class.now ∷ [])) bytes.now }
{
    let (count, mut rest) = read_u2(bytes)?;
    for _ in 0..count {
        rest = skip_one(class, Kind::Class, rest)?;
    }
    Some(rest)
}

/// The bytes after a count and that many inner classes.
pub(crate) fn skip_inner_classes<'b>(class: &LaidClass, bytes: &'b [u8]) -> Option<&'b [u8]>
    ensures { option_copied result ≡ past_counted (past_parts class.now inner_class) bytes.now }
{
    let (count, mut rest) = read_u2(bytes)?;
    for _ in 0..count {
        rest = skip_inner_class(class, rest)?;
    }
    Some(rest)
}

/// The bytes after a count and that many arguments of a bootstrap method.
pub(crate) fn skip_arguments<'b>(class: &LaidClass, bytes: &'b [u8]) -> Option<&'b [u8]>
    ensures { option_copied result
        ≡ past_counted (past_tests (names_such is_loadable class.now ∷ [])) bytes.now }
{
    let (count, mut rest) = read_u2(bytes)?;
    for _ in 0..count {
        rest = skip_loadable(class, rest)?;
    }
    Some(rest)
}
