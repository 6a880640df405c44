//! What a Utf8 is, all determined at once.
ghost use Rattle.std.specs.Prelude.{◌≡◌};
ghost use Rattle.cm_descriptors.specs.Forms.{has_utf8_form, is_class_name, is_unqualified_name};
ghost use Rattle.cm_descriptors.specs.Forms.{is_method_name, is_field_descriptor};
ghost use Rattle.cm_descriptors.specs.Judgement.{judgement, is_special_name};
ghost use Rattle.cm_descriptors.specs.Marks.{marks_of};

use crate::descriptors::{is_field_descriptor, method_units};
use crate::joined::are_names;
use crate::marks::{ByteMarks, marks_of};
use crate::utf8::are_characters;

/// What is determined once for a Utf8, however many constants and members name it.
#[derive(Clone, Copy, Debug, PartialEq, Eq)]
pub struct Judgement {
    /// Whether it has the form of a Utf8 (JVMS 4.4.7).
    pub utf8: bool,
    /// Whether it is a class name (JVMS 4.2.1).
    pub class_name: bool,
    /// Whether it is an unqualified name (JVMS 4.2.2).
    pub unqualified_name: bool,
    /// Whether it names a method (JVMS 4.2.2).
    pub method_name: bool,
    /// Whether it is a field descriptor (JVMS 4.3.2).
    pub field_descriptor: bool,
    /// The units of a method descriptor's parameters (JVMS 4.3.3).
    pub method_units: Option<u8>,
}

/// By the marks: most Utf8s are plain.
fn has_utf8_form_by_marks(bytes: &[u8], marks: ByteMarks) -> bool
    requires { marks ≡ marks_of bytes.now }
    ensures { result ≡ has_utf8_form bytes.now }
{
    marks.plain || are_characters(bytes)
}

/// By the marks alone.
#[tactic(auto, using(crate::proofs::ByMarks::unqualified_by_marks))]
fn is_unqualified_name_by_marks(bytes: &[u8], marks: ByteMarks) -> bool
    requires { marks ≡ marks_of bytes.now }
    ensures { result ≡ is_unqualified_name bytes.now }
{
    !bytes.is_empty() & marks.no_stop & marks.no_slash
}

/// By the marks: most class names are unqualified names, and none has a stop.
fn is_class_name_by_marks(bytes: &[u8], marks: ByteMarks) -> bool
    requires { marks ≡ marks_of bytes.now }
    ensures { result ≡ is_class_name bytes.now }
{
    marks.no_stop && (is_unqualified_name_by_marks(bytes, marks) || are_names(bytes))
}

/// The two method names that have angles.
fn is_special_name(bytes: &[u8]) -> bool
    ensures { result ≡ is_special_name bytes.now }
{
    bytes == b"<init>".as_slice() || bytes == b"<clinit>".as_slice()
}

/// By the marks, and by comparing if there are angles.
fn is_method_name_by_marks(bytes: &[u8], marks: ByteMarks) -> bool
    requires { marks ≡ marks_of bytes.now }
    ensures { result ≡ is_method_name bytes.now }
{
    is_unqualified_name_by_marks(bytes, marks) && (marks.no_angle || is_special_name(bytes))
}

/// By the marks: without a `;` or a `[` it is one byte.
fn is_field_descriptor_by_marks(bytes: &[u8], marks: ByteMarks) -> bool
    requires { marks ≡ marks_of bytes.now }
    ensures { result ≡ is_field_descriptor bytes.now }
{
    if marks.no_stop && bytes.len() != 1 {
        return false;
    }
    is_field_descriptor(bytes)
}

/// What the bytes are. Most of it follows from the kinds of bytes among them.
#[tactic(auto, unfolding(crate::specs::Judgement::judgement))]
pub fn judge(bytes: &[u8]) -> Judgement
    ensures { result ≡ judgement bytes.now }
{
    let marks = marks_of(bytes);
    Judgement {
        utf8: has_utf8_form_by_marks(bytes, marks),
        class_name: is_class_name_by_marks(bytes, marks),
        unqualified_name: is_unqualified_name_by_marks(bytes, marks),
        method_name: is_method_name_by_marks(bytes, marks),
        field_descriptor: is_field_descriptor_by_marks(bytes, marks),
        method_units: method_units(bytes),
    }
}
