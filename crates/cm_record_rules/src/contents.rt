//! Which bytes are the content of an attribute.
ghost use Rattle.std.specs.Prelude.{◌≡◌};
ghost use Rattle.cm_attributes.specs.Contents.{is_content, is_value_of};

use crate::bootstrap::skip_bootstrap_methods;
use crate::code::skip_code;
use crate::laid::LaidClass;
use crate::parts::{
    skip_enclosing_method, skip_exceptions, skip_inner_classes, skip_number, skip_one,
};
use cm_attributes::{Known, is_whole, value_kind};
use cm_class::Kind;

/// Whether the bytes are a content of this attribute, and nothing else. For a ConstantValue it
/// isn't checked which constant it names.
#[tactic(auto, unfolding(crate::specs::Parts::is_content, crate::specs::Parts::past_parts))]
pub(crate) fn is_content(class: &LaidClass, known: Known, bytes: &[u8]) -> bool
    ensures { result ≡ is_content class.now known bytes.now }
{
    match known {
        Known::Code => is_whole(skip_code(class, bytes)),
        Known::ConstantValue => is_whole(skip_number(bytes)),
        Known::Exceptions => is_whole(skip_exceptions(class, bytes)),
        Known::Signature | Known::SourceFile => is_whole(skip_one(class, Kind::Utf8, bytes)),
        Known::Synthetic | Known::Deprecated => is_whole(Some(bytes)),
        Known::EnclosingMethod => is_whole(skip_enclosing_method(class, bytes)),
        Known::InnerClasses => is_whole(skip_inner_classes(class, bytes)),
        Known::BootstrapMethods => is_whole(skip_bootstrap_methods(class, bytes)),
    }
}

/// Whether the bytes are the index of a constant that a field of this descriptor may have, and
/// nothing else (JVMS 4.7.2).
#[tactic(auto, unfolding(crate::specs::Parts::past_parts))]
pub(crate) fn is_value_of(class: &LaidClass, descriptor: &[u8], bytes: &[u8]) -> bool
    ensures { result ≡ is_value_of class.now descriptor.now bytes.now }
{
    match value_kind(descriptor) {
        Some(kind) => is_whole(skip_one(class, kind, bytes)),
        None => false,
    }
}
