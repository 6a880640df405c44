//! The content of BootstrapMethods (JVMS 4.7.23).
ghost use Rattle.std.specs.Prelude.{◌≡◌, option_copied};
ghost use Rattle.cm_attributes.specs.Contents.{past_counted, past_bootstrap_method};

use crate::numbers::read_u2;
use crate::part::{Part, skip_parts, skip_rows};
use cm_class::{Class, Kind};

/// The bytes after a method handle, a count and that many arguments.
fn skip_bootstrap_method<'b>(class: &Class, bytes: &'b [u8]) -> Option<&'b [u8]>
    ensures { option_copied result ≡ past_bootstrap_method class.now bytes.now }
{
    let rest = skip_parts(class, &[Part::Names(Kind::MethodHandle)], bytes)?;
    skip_rows(class, &[Part::Loadable], rest)
}

/// The bytes after a count and that many bootstrap methods.
pub(crate) fn skip_bootstrap_methods<'b>(class: &Class, bytes: &'b [u8]) -> Option<&'b [u8]>
    ensures { option_copied result ≡ past_counted (past_bootstrap_method class.now) bytes.now }
{
    let (count, mut rest) = read_u2(bytes)?;
    for _ in 0..count {
        rest = skip_bootstrap_method(class, rest)?;
    }
    Some(rest)
}
