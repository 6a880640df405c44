//! The bootstrap methods of a class (JVMS 4.7.23).
ghost use Rattle.std.specs.Prelude.{◌≡◌, option_copied};
ghost use Rattle.cm_attributes.specs.Contents.{past_counted, past_bootstrap_method, stated_count};
ghost use Rattle.cm_attributes.specs.Contents.{bootstrap_count as bootstrap_count_of};

use crate::contents::is_content;
use crate::known::first_place;
use crate::laid::LaidClass;
use crate::parts::{skip_arguments, skip_one};
use cm_attributes::{Known, read_u2};
use cm_class::{Attribute, Kind};

/// The bytes after a method handle, a count and that many arguments.
#[tactic(auto, unfolding(crate::specs::Parts::past_parts))]
fn skip_bootstrap_method<'b>(class: &LaidClass, bytes: &'b [u8]) -> Option<&'b [u8]>
    ensures { option_copied result ≡ past_bootstrap_method class.now bytes.now }
{
    let rest = skip_one(class, Kind::MethodHandle, bytes)?;
    skip_arguments(class, rest)
}

/// The bytes after a count and that many bootstrap methods.
pub(crate) fn skip_bootstrap_methods<'b>(class: &LaidClass, bytes: &'b [u8]) -> Option<&'b [u8]>
    ensures { option_copied result ≡ past_counted (past_bootstrap_method class.now) bytes.now }
{
    let (count, mut rest) = read_u2(bytes)?;
    for _ in 0..count {
        rest = skip_bootstrap_method(class, rest)?;
    }
    Some(rest)
}

/// The count that an attribute begins with; 0 if its content is malformed.
fn stated_count(class: &LaidClass, attribute: &Attribute) -> u16
    ensures { result ≡ stated_count class.now attribute.now }
{
    let bytes = attribute.content();
    if !is_content(class, Known::BootstrapMethods, bytes) {
        return 0;
    }
    match read_u2(bytes) {
        Some((count, _)) => count,
        None => 0,
    }
}

/// How many bootstrap methods the class has: those of its first such attribute; none if its content
/// is malformed.
#[tactic(auto, unfolding(cm_attributes::specs::Contents::bootstrap_count))]
pub(crate) fn bootstrap_count(class: &LaidClass) -> u16
    ensures { result ≡ bootstrap_count_of class.now }
{
    match class
        .attributes()
        .get(first_place(class, Known::BootstrapMethods))
    {
        Some(attribute) => stated_count(class, &attribute),
        None => 0,
    }
}
