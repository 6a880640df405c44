//! How many bootstrap methods a class has (JVMS 4.7.23).
ghost use Rattle.std.specs.Prelude.{◌≡◌};
ghost use Rattle.cm_attributes.specs.Contents.{stated_count, bootstrap_count};

use crate::contents::is_content;
use crate::known::{Known, first_place};
use crate::numbers::read_u2;
use cm_class::{Attribute, Class};

/// The count that an attribute begins with; 0 if its content is malformed.
fn stated_count(class: &Class, attribute: &Attribute) -> u16
    ensures { result ≡ stated_count class.now attribute.now }
{
    let bytes = attribute.content();
    if !is_content(class, Known::BootstrapMethods, bytes) {
        return 0;
    }
    match read_u2(bytes) {
        Some((count, _)) => count,
        None => 0,
    }
}

/// How many bootstrap methods the class has: those of its first such attribute; none if its content
/// is malformed.
#[tactic(auto, unfolding(crate::specs::Contents::bootstrap_count))]
pub fn bootstrap_count(class: &Class) -> u16
    ensures { result ≡ bootstrap_count class.now }
{
    match class
        .attributes()
        .get(first_place(class, Known::BootstrapMethods))
    {
        Some(attribute) => stated_count(class, &attribute),
        None => 0,
    }
}
