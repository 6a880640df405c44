//! Which bytes are the content of an attribute: each a table of parts.
ghost use Rattle.std.specs.Prelude.{◌≡◌};
ghost use Rattle.cm_attributes.specs.Contents.{is_content, value_kind, is_value_of};

use crate::bootstrap::skip_bootstrap_methods;
use crate::code::skip_code;
use crate::known::Known;
use crate::numbers::is_whole;
use crate::part::{Part, are_rows, is_row};
use cm_class::{Class, Kind};

/// The content is the index of a Utf8 (JVMS 4.7.9, 4.7.10).
const ONE_UTF8: [Part; 1] = [Part::Names(Kind::Utf8)];

/// For each exception, its class (JVMS 4.7.5).
const EXCEPTION: [Part; 1] = [Part::Names(Kind::Class)];

/// The enclosing class, and the method (JVMS 4.7.7).
const ENCLOSING_METHOD: [Part; 2] = [Part::Names(Kind::Class), Part::ZeroOr(Kind::NameAndType)];

/// For each inner class: the class itself, its outer class, its name and its flags (JVMS 4.7.6).
const INNER_CLASS: [Part; 4] = [
    Part::Names(Kind::Class),
    Part::ZeroOr(Kind::Class),
    Part::ZeroOr(Kind::Utf8),
    Part::Any,
];

/// Whether the bytes are a content of this attribute, and nothing else. For a ConstantValue it
/// isn't checked which constant it names.
#[tactic(auto, unfolding(crate::specs::Contents::is_content))]
pub fn is_content(class: &Class, known: Known, bytes: &[u8]) -> bool
    ensures { result ≡ is_content class.now known bytes.now }
{
    match known {
        Known::Code => is_whole(skip_code(class, bytes)),
        Known::ConstantValue => is_row(class, &[Part::Any], bytes),
        Known::Exceptions => are_rows(class, &EXCEPTION, bytes),
        Known::Signature | Known::SourceFile => is_row(class, &ONE_UTF8, bytes),
        Known::Synthetic | Known::Deprecated => is_row(class, &[], bytes),
        Known::EnclosingMethod => is_row(class, &ENCLOSING_METHOD, bytes),
        Known::InnerClasses => are_rows(class, &INNER_CLASS, bytes),
        Known::BootstrapMethods => is_whole(skip_bootstrap_methods(class, bytes)),
    }
}

/// The kind of constant that a field of this descriptor may have (JVMS 4.7.2, table 4.7.2-A).
#[tactic(auto, unfolding(crate::specs::Contents::value_kind))]
pub fn value_kind(descriptor: &[u8]) -> Option<Kind>
    ensures { result ≡ value_kind descriptor.now }
{
    if descriptor == b"J".as_slice() {
        Some(Kind::Long)
    } else if descriptor == b"F".as_slice() {
        Some(Kind::Float)
    } else if descriptor == b"D".as_slice() {
        Some(Kind::Double)
    } else if descriptor == b"I".as_slice()
        || descriptor == b"S".as_slice()
        || descriptor == b"C".as_slice()
        || descriptor == b"B".as_slice()
        || descriptor == b"Z".as_slice()
    {
        Some(Kind::Integer)
    } else if descriptor == b"Ljava/lang/String;".as_slice() {
        Some(Kind::String)
    } else {
        None
    }
}

/// Whether the bytes are the index of a constant that a field of this descriptor may have, and
/// nothing else (JVMS 4.7.2).
pub fn is_value_of(class: &Class, descriptor: &[u8], bytes: &[u8]) -> bool
    ensures { result ≡ is_value_of class.now descriptor.now bytes.now }
{
    match value_kind(descriptor) {
        Some(kind) => is_row(class, &[Part::Names(kind)], bytes),
        None => false,
    }
}
